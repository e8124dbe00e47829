//! Links of areas and anon_vmas: an area leaves all of its own, and a refused link is made later.

ghost use Rattle.std.specs.Prelude.{◌≡◌, ◌<◌};

use av_base::Steps;
use av_chain::Links;
use std::alloc::{AllocError, Global};
use std::marker::Brand;
use std::sync::ledger::{Blank, Ledger};

/// Takes an area out, in steps that a new ledger counts.
fn unlink_by<L: Ledger>(links: &mut Links, area: u64, blank: Blank)
    requires name { blank.name ≡ L.name }
    requires parts { blank.parts ≡ L.parts }
    requires some { 0 < blank.parts }
{
    let mut steps = Steps::<L>::open(blank);
    links.unlink_all(area, &mut steps);
}

/// Takes an area out, in steps that nobody looks at.
fn unlink(links: &mut Links, area: u64, blank: Blank)
    requires { 0 < blank.parts }
{
    unlink_by::<Brand>(links, area, blank);
}

/// Links an area to an anon_vma, unless it is linked already.
fn link(links: &mut Links, area: u64, anon: u64) -> Result<(), AllocError> {
    if links.has(area, anon) {
        return Ok(());
    }
    links.link(area, anon)
}

/// Links as these pairs of an area and an anon_vma say.
fn links_of(alloc: Global, pairs: &[(u64, u64)]) -> Result<Links, AllocError> {
    let mut links = Links::new(alloc);
    for (area, anon) in pairs {
        link(&mut links, *area, *anon)?;
    }
    Ok(links)
}

/// How many anon_vmas the areas 0 and 1 have, and which comes first.
fn chains(links: &Links) -> [(u64, Option<u64>); 2] {
    [
        (links.len(0), links.first(0)),
        (links.len(1), links.first(1)),
    ]
}

/// Whether an anon_vma has these users, in this order, and no others.
fn has_users(links: &Links, anon: u64, wanted: &[u64]) -> bool {
    let mut users = links.users(anon);
    for area in wanted {
        if users.next() != Some(*area) {
            return false;
        }
    }
    users.next().is_none()
}

#[test]
fn an_area_leaves_its_lists(rt: HostRuntime) -> Result<(), AllocError> {
    let mut links = links_of(rt.alloc(), &[(0, 0), (0, 1), (1, 0)])?;
    assert!(rt; links.has(0, 1));
    assert!(rt; chains(&links) == [(2, Some(0)), (1, Some(0))]);
    assert!(rt; has_users(&links, 0, &[0, 1]));
    let mut chain = links.chain(rt.alloc(), 1)?;
    links.push_chain(0, &mut chain)?;
    assert!(rt; chain.as_slice() == [0, 0, 1].as_slice());
    unlink(&mut links, 0, Blank::new(1));
    assert!(rt; has_users(&links, 0, &[1]) && has_users(&links, 1, &[]));
    assert!(rt; chains(&links) == [(0, None), (1, Some(0))]);
    unlink(&mut links, 0, Blank::new(1));
    assert!(rt; chains(&links) == [(0, None), (1, Some(0))]);
    Ok(())
}

/// With memory refused once, at any allocation, nothing is half done: the link is made the second
/// time.
#[test]
fn a_refused_link_can_be_made_again(rt: HostRuntime) -> Result<(), AllocError> {
    let mut links = Links::new(rt.alloc());
    for area in 0..5 {
        for anon in 7..10 {
            if link(&mut links, area, anon).is_err() {
                assert!(rt; !links.has(area, anon));
                link(&mut links, area, anon)?;
            }
            assert!(rt; links.len(area) == anon - 6);
        }
        assert!(rt; links.first(area) == Some(7));
    }
    unlink(&mut links, 2, Blank::new(1));
    assert!(rt; links.len(2) == 0);
    assert!(rt; links.len(3) == 3);
    Ok(())
}
