//! The tree of one process's areas: what is found at a page or beside it, and where a gap is.

use av_vmatree::*;
use std::test::Fail;

#[test]
fn one_area_takes_all_pages(rt: HostRuntime) -> Result<(), Fail> {
    let mut tree = Tree::new(rt.alloc());
    tree.insert(7, 16, 0x7ffffffff)?;
    assert!(rt; tree.gap(1) == None);
    assert!(rt; tree.find(16) == Some(7));
    assert!(rt; tree.before(0x7ffffffff) == Some(7));
    assert!(rt; tree.after(15) == Some(7));
    assert!(rt; !tree.is_free(16, 17));
    tree.remove(7, 16);
    assert!(rt; tree.find(16) == None);
    Ok(())
}

/// There may be more areas than a tree was made with room for.
#[test]
fn areas_come_beyond_the_room(rt: HostRuntime) -> Result<(), Fail> {
    for room in 0..3 {
        let mut tree = Tree::with_room(rt.alloc(), room)?;
        tree.insert(7, 20, 24)?;
        tree.insert(8, 30, 34)?;
        tree.insert(9, 16, 18)?;
        assert!(rt; tree.find(17) == Some(9) && tree.before(30) == Some(7));
    }
    Ok(())
}

#[test]
fn an_area_grows_and_shrinks_at_its_end(rt: HostRuntime) -> Result<(), Fail> {
    let mut tree = Tree::new(rt.alloc());
    tree.insert(7, 20, 24)?;
    tree.insert(8, 30, 34)?;
    tree.set_end(7, 20, 30);
    assert!(rt; tree.find(29) == Some(7));
    assert!(rt; tree.find(30) == Some(8));
    assert!(rt; tree.gap(0x7ffffffff - 33) == None);
    tree.set_end(8, 30, 0x7ffffffff);
    assert!(rt; tree.gap(4) == Some(16));
    tree.set_end(7, 20, 21);
    assert!(rt; tree.find(21) == None);
    assert!(rt; tree.gap(9) == Some(21));
    Ok(())
}
