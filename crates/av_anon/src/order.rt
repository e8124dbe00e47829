//! Chain order is kept by each call: laws on what the calls make of areas, links and spans.
ghost use Rattle.std.specs.Prelude.{◌≡◌, ℕ, List, [], Option, Some, None};
ghost use Rattle.av_base.specs.Words.{with_at};
ghost use Rattle.av_interval.specs.declared.span.Span.{Span};
ghost use Rattle.av_vma.specs.Pages.{IsWhole};
ghost use Rattle.av_vma.specs.declared.area.Area.{Area};
ghost use Rattle.av_anon.specs.Anons.{give_own, nobody, own_of, Family};
ghost use Rattle.av_anon.specs.Fork.{after_clone, after_fork, own_after_fork, gets_own};
ghost use Rattle.av_anon.specs.Order.{IsArea, IsInOrder};
ghost use Rattle.av_anon.specs.Prepare.{loan_to, after_prepare, own_after_prepare};
ghost use Rattle.av_anon.specs.Resize.{with_bounds};
ghost use Rattle.av_anon.specs.Spans.{span_at, GoWithLinks};
ghost use Rattle.av_anon.specs.Unlink.{after_unlink};

/// An area of whole pages, as a process may have it, has linear indices that are numbers of the
/// machine.
pub fn whole_areas_fit()
    ensures { (area : Area) → IsWhole area → IsArea area }
{}

/// Without areas and anon_vmas there is chain order.
pub fn nobody_is_in_order()
    ensures { IsInOrder (λ _. None) nobody (λ _. []) }
{}

/// `Anons::prepare` keeps chain order.
pub fn prepare_keeps_order()
    ensures { (areas : ℕ → Option Area) (f : Family) (spans spans' : ℕ → List Span)
        (area : ℕ) (A : Area) (before after : Option ℕ)
        → IsInOrder areas f spans → areas area ≡ Some A → A.anon ≡ None
        → let loan = loan_to areas f.chain area before after in
        let areas' = give_own area (Some (own_after_prepare loan f)) areas in
        let f' = after_prepare area loan f in
        GoWithLinks areas' f'.chain spans' → IsInOrder areas' f' spans' }
{}

/// `Anons::clone_chain` keeps chain order.
pub fn clone_keeps_order()
    ensures { (areas : ℕ → Option Area) (f : Family) (spans spans' : ℕ → List Span)
        (src dst : ℕ) (A : Area)
        → IsInOrder areas f spans → areas dst ≡ Some A → A.anon ≡ None
        → let own = own_of (areas src) in
        let areas' = gets_own dst own areas in
        let f' = after_clone own src dst f in
        GoWithLinks areas' f'.chain spans' → IsInOrder areas' f' spans' }
{}

/// `Anons::fork` keeps chain order.
pub fn fork_keeps_order()
    ensures { (areas : ℕ → Option Area) (f : Family) (spans spans' : ℕ → List Span)
        (src dst : ℕ) (A : Area)
        → IsInOrder areas f spans → areas dst ≡ Some A → A.anon ≡ None
        → let own = own_of (areas src) in
        let areas' = gets_own dst (own_after_fork own src f) areas in
        let f' = after_fork own src dst f in
        GoWithLinks areas' f'.chain spans' → IsInOrder areas' f' spans' }
{}

/// `Anons::resize` keeps chain order.
pub fn resize_keeps_order()
    ensures { (areas : ℕ → Option Area) (f : Family) (spans spans' : ℕ → List Span)
        (area start end pgoff : ℕ) (A : Area)
        → IsInOrder areas f spans → areas area ≡ Some A → IsArea (with_bounds start end pgoff A)
        → let areas' = with_at area (Some (with_bounds start end pgoff A)) areas in
        GoWithLinks areas' f.chain spans' → IsInOrder areas' f spans' }
{}

/// `Anons::unlink` keeps chain order.
pub fn unlink_keeps_order()
    ensures { (areas : ℕ → Option Area) (f : Family) (spans spans' : ℕ → List Span)
        (area : ℕ) (A : Area)
        → IsInOrder areas f spans → areas area ≡ Some A
        → let areas' = give_own area None areas in
        let f' = after_unlink (own_of (areas area)) area f in
        GoWithLinks areas' f'.chain spans' → IsInOrder areas' f' spans' }
{}

/// An area without anon_vma comes, changes or goes: chain order stays.
pub fn bare_areas_keep_order()
    ensures { (areas : ℕ → Option Area) (f : Family) (spans : ℕ → List Span)
        (area : ℕ) (new : Option Area)
        → IsInOrder areas f spans → own_of (areas area) ≡ None → own_of new ≡ None
        → ((A : Area) → new ≡ Some A → IsArea A)
        → IsInOrder (with_at area new areas) f spans }
{}

/// An area changes but in its own anon_vma and its linear indices: chain order stays.
pub fn other_fields_keep_order()
    ensures { (areas : ℕ → Option Area) (f : Family) (spans : ℕ → List Span)
        (area : ℕ) (A B : Area)
        → IsInOrder areas f spans → areas area ≡ Some A → B.anon ≡ A.anon
        → span_at area B ≡ span_at area A → IsArea B
        → IsInOrder (with_at area (Some B) areas) f spans }
{}
