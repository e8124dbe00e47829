//! Searches among a thousand spans, with as many steps as they take.

ghost use Rattle.std.specs.Prelude.{◌≡◌, ◌<◌};

use av_base::Steps;
use av_interval::search::count;
use av_interval::*;
use std::alloc::{AllocError, Global};
use std::marker::Brand;
use std::sync::ledger::{Blank, Ledger};
use std::test::Fail;

/// A span that overlaps, told by its first index and its area.
type Found = Option<(u64, u64)>;

/// The first span that overlaps, and the next one.
fn two<L: Ledger>(spans: &Spans, anon: u64, index: u64, steps: &mut Steps<L>) -> (Found, Found) {
    let first = spans.overlap(anon, index, None, steps);
    let second = match first {
        None => None,
        Some(place) => spans.overlap(anon, index, Some(place), steps),
    };
    (first, second)
}

/// How many there are, and what is found at two indices, before and after half of the spans are
/// taken out.
fn find_all<L: Ledger>(
    alloc: Global,
    blank: Blank,
) -> Result<([u64; 4], [(Found, Found); 5]), AllocError>
    requires name { blank.name ≡ L.name }
    requires parts { blank.parts ≡ L.parts }
    requires some { 0 < blank.parts }
{
    let mut steps = Steps::<L>::open(blank);
    let mut spans = Spans::new(alloc);
    for i in 0..1000u64 {
        spans.add(7, 10 * i, 10 * i + 4, i)?;
    }
    let all = spans.len(7);
    let once = count(&spans, 7, 5003, &mut steps);
    let never = count(&spans, 7, 5005, &mut steps);
    let inside = two(&spans, 7, 5003, &mut steps);
    let between = two(&spans, 7, 5005, &mut steps);
    let other = two(&spans, 8, 5003, &mut steps);
    for i in 0..500u64 {
        spans.remove(7, 20 * i, 2 * i);
    }
    let gone = two(&spans, 7, 5003, &mut steps);
    let left = two(&spans, 7, 5013, &mut steps);
    Ok((
        [all, once, never, spans.len(7)],
        [inside, between, other, gone, left],
    ))
}

#[test]
fn one_in_a_thousand(rt: HostRuntime) -> Result<(), Fail> {
    let (many, found) = find_all::<Brand>(rt.alloc(), Blank::new(1))?;
    let wanted = [
        (Some((5000, 500)), None),
        (None, None),
        (None, None),
        (None, None),
        (Some((5010, 501)), None),
    ];
    assert!(rt; many == [1000, 1, 0, 500]);
    assert!(rt; found == wanted);
    Ok(())
}
