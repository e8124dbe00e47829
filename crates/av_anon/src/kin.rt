//! Kin stays by `clone_chain`, by `unlink`, and where no anon_vma changes; and what follows from
//! it: laws.
ghost use Rattle.std.specs.Prelude.{◌≡◌, ℕ, true, List, Option, Some, None, IsSome};
ghost use Rattle.av_base.specs.Words.{is_in};
ghost use Rattle.av_interval.specs.declared.span.Span.{Span};
ghost use Rattle.av_vma.specs.declared.area.Area.{Area};
ghost use Rattle.av_anon.specs.Anons.{give_own, own_of, Family};
ghost use Rattle.av_anon.specs.Fork.{after_clone, gets_own};
ghost use Rattle.av_anon.specs.Kin.{chain_by, length_by, KinStays};
ghost use Rattle.av_anon.specs.Order.{IsInOrder};
ghost use Rattle.av_anon.specs.Unlink.{after_unlink};

/// The chain by an own anon_vma is that of each area whose own it is.
pub fn chains_go_by_own()
    ensures { (areas : ℕ → Option Area) (f : Family) (spans : ℕ → List Span) (a v : ℕ)
        → IsInOrder areas f spans → own_of (areas a) ≡ Some v → chain_by areas f v ≡ f.chain a }
{}

/// An anon_vma is there exactly while an area is linked to it.
pub fn anon_vmas_are_linked()
    ensures there { (areas : ℕ → Option Area) (f : Family) (spans : ℕ → List Span) (v : ℕ)
        → IsInOrder areas f spans → IsSome (f.info v) → (a : ℕ) × (is_in v (f.chain a) ≡ true) }
    ensures linked { (areas : ℕ → Option Area) (f : Family) (spans : ℕ → List Span) (a v : ℕ)
        → IsInOrder areas f spans → is_in v (f.chain a) ≡ true → IsSome (f.info v) }
{}

/// Where areas change and the anon_vmas don't, and no area gets another own anon_vma but none, kin
/// stays.
pub fn kin_stays_with_owns()
    ensures { (areas areas' : ℕ → Option Area) (f : Family)
        → ((a v : ℕ) → own_of (areas' a) ≡ Some v → own_of (areas a) ≡ Some v)
        → KinStays areas areas' f f }
{}

/// Kin stays over two calls where it stays over each.
pub fn kin_stays_over_both()
    ensures { (areas areas' areas'' : ℕ → Option Area) (f f' f'' : Family)
        → KinStays areas areas' f f' → KinStays areas' areas'' f' f''
        → KinStays areas areas'' f f'' }
{}

/// `Anons::unlink` keeps kin.
pub fn unlink_keeps_kin()
    ensures { (areas : ℕ → Option Area) (f : Family) (spans : ℕ → List Span) (area : ℕ) (A : Area)
        → IsInOrder areas f spans → areas area ≡ Some A
        → KinStays areas (give_own area None areas) f (after_unlink (own_of (areas area)) area f) }
{}

/// `Anons::clone_chain` keeps kin.
pub fn clone_keeps_kin()
    ensures { (areas : ℕ → Option Area) (f : Family) (spans : ℕ → List Span) (src dst : ℕ)
        (A : Area) → IsInOrder areas f spans → areas dst ≡ Some A → A.anon ≡ None
        → let own = own_of (areas src) in
        KinStays areas (gets_own dst own areas) f (after_clone own src dst f) }
{}

/// Chains have the lengths that they had.
pub fn lengths_stay()
    ensures { (areas areas' : ℕ → Option Area) (f f' : Family) (spans spans' : ℕ → List Span)
        (b v : ℕ) → IsInOrder areas f spans → IsInOrder areas' f' spans'
        → KinStays areas areas' f f' → own_of (areas' b) ≡ Some v
        → length_by areas' f' (Some v) ≡ length_by areas f (Some v) }
{}
