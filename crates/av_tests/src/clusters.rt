//! The order in which the slots of an area are given, cluster by cluster.

use av_clusters::Clusters;
use std::alloc::AllocError;

/// Whether these pages are taken next, one after the other: from one on, below another.
fn are_taken(clusters: &mut Clusters, from: u32, to: u32) -> bool {
    for page in from..to {
        if clusters.take() != Some(page) {
            return false;
        }
    }
    true
}

/// Gives a page back, and says whether it was taken, and is not any more.
fn is_given_back(clusters: &mut Clusters, page: u32) -> bool {
    if !clusters.is_taken(page) {
        return false;
    }
    clusters.give(page);
    !clusters.is_taken(page)
}

/// Whether pages are taken in this order: from one on, below another; then one is given back.
fn go_so(clusters: &mut Clusters, rows: &[(u32, u32, Option<u32>)]) -> bool {
    for (from, to, back) in rows {
        if !are_taken(clusters, *from, *to) {
            return false;
        }
        if let Some(page) = back
            && !is_given_back(clusters, *page)
        {
            return false;
        }
    }
    clusters.take() == None && clusters.free() == 0
}

#[test]
fn slots_are_given_cluster_by_cluster(rt: HostRuntime) -> Result<(), AllocError> {
    let mut clusters = Clusters::new(rt.alloc(), 600, &[])?;
    assert!(rt; clusters.free() == 599);
    let rows = [
        (1, 257, Some(256)),
        (512, 513, Some(5)),
        (513, 600, None),
        (256, 512, None),
        (5, 6, None),
    ];
    assert!(rt; go_so(&mut clusters, &rows));
    Ok(())
}

#[test]
fn bad_pages_are_never_given(rt: HostRuntime) -> Result<(), AllocError> {
    let mut clusters = Clusters::new(rt.alloc(), 6, &[4, 2, 2, 6, 99])?;
    assert!(rt; clusters.free() == 3);
    assert!(rt; go_so(&mut clusters, &[(1, 2, None), (3, 4, None), (5, 6, None)]));
    assert!(rt; clusters.is_taken(3) && !clusters.is_taken(4));
    Ok(())
}
