//! Spans of one area in the trees of several anon_vmas.
ghost use Rattle.std.specs.Prelude.{◌≡◌, ℕ, true, IsSome, OnOk};
ghost use Rattle.av_base.specs.Words.{is_in};
ghost use Rattle.av_arena.specs.Order.{entry_at};
ghost use Rattle.av_interval.specs.Span.{key, key_of, triple};
ghost use Rattle.av_interval.specs.Spans.{IsNew, triples};
ghost use Rattle.av_anon.specs.Anons.{IsRising};
ghost use Rattle.av_anon.specs.Spans.{spans_with, spans_without};

use av_interval::Spans;
use std::alloc::AllocError;

/// Puts an area's span into the trees of these anon_vmas, to which it is new.
pub(crate) fn span_each(
    spans: &mut Spans,
    anons: &[u64],
    first: u64,
    last: u64,
    area: u64,
) -> Result<(), AllocError>
    requires rising { IsRising anons.now }
    requires new { (v : ℕ) → is_in v anons.now ≡ true → IsNew area (triples spans.old v) }
    ensures { OnOk result ((v : ℕ) → triples spans.new v
        ≡ spans_with anons.now (triple first last area) (triples spans.old) v) }
{
    for anon in anons {
        spans.add(*anon, first, last, area)?;
    }
    Ok(())
}

/// Takes an area's span, which begins at `first`, out of the trees of these anon_vmas.
fn unspan_each(spans: &mut Spans, anons: &[u64], first: u64, area: u64)
    requires rising { IsRising anons.now }
    requires there { (v : ℕ) → is_in v anons.now ≡ true
        → IsSome (entry_at key (key_of first area) (triples spans.old v)) }
    ensures { (v : ℕ) → triples spans.new v
        ≡ spans_without anons.now (key_of first area) (triples spans.old) v }
{
    for anon in anons {
        spans.remove(*anon, first, area);
    }
}

/// Gives an area's span, which begins at `first`, another last index in the trees of these
/// anon_vmas. It takes no memory.
fn respan_each(spans: &mut Spans, anons: &[u64], first: u64, last: u64, area: u64)
    requires rising { IsRising anons.now }
    requires there { (v : ℕ) → is_in v anons.now ≡ true
        → IsSome (entry_at key (key_of first area) (triples spans.old v)) }
    ensures { (v : ℕ) → triples spans.new v
        ≡ spans_with anons.now (triple first last area)
        (spans_without anons.now (key_of first area) (triples spans.old)) v }
{
    for anon in anons {
        spans.resize(*anon, first, last, area);
    }
}

/// Puts an area's span, which begins at `from`, elsewhere in the trees of these anon_vmas. Where it
/// begins there as before it takes no memory.
pub(crate) fn move_each(
    spans: &mut Spans,
    anons: &[u64],
    from: u64,
    first: u64,
    last: u64,
    area: u64,
) -> Result<(), AllocError>
    requires rising { IsRising anons.now }
    requires there { (v : ℕ) → is_in v anons.now ≡ true
        → IsSome (entry_at key (key_of from area) (triples spans.old v)) }
    requires alone { (v : ℕ) → is_in v anons.now ≡ true → IsNew area
        (spans_without anons.now (key_of from area) (triples spans.old) v) }
    ensures { OnOk result ((v : ℕ) → triples spans.new v
        ≡ spans_with anons.now (triple first last area)
        (spans_without anons.now (key_of from area) (triples spans.old)) v) }
{
    if from == first {
        respan_each(spans, anons, first, last, area);
        return Ok(());
    }
    unspan_each(spans, anons, from, area);
    span_each(spans, anons, first, last, area)
}
