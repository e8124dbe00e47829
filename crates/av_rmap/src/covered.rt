//! What a walk needs, by what the layers below keep.

ghost use Rattle.std.specs.Prelude.{◌≡◌, ℕ, List, Option, Some, true};
ghost use Rattle.av_anon.specs.Anons.{Family};
ghost use Rattle.av_anon.specs.Order.{IsInOrder};
ghost use Rattle.av_anon.specs.declared.infos.Info.{Info};
ghost use Rattle.av_base.specs.Items.{Item, with_item};
ghost use Rattle.av_base.specs.Words.{how_many};
ghost use Rattle.av_interval.specs.Search.{overlaps};
ghost use Rattle.av_interval.specs.declared.span.Span.{Span};
ghost use Rattle.av_pagetable.specs.declared.pte.Pte.{Pte};
ghost use Rattle.av_rmap.specs.Covered.{IsReached};
ghost use Rattle.av_rmap.specs.Items.{AreRoots, AreRootsApart, KeepsRoots};
ghost use Rattle.av_rmap.specs.View.{AreSpanned, view_with};
ghost use Rattle.av_rmap.specs.Walk.{is_held};
ghost use Rattle.av_vma.specs.Index.{index_of};
ghost use Rattle.av_vma.specs.Pages.{has_page};
ghost use Rattle.av_vma.specs.declared.area.Area.{Area};

/// Of areas, chains and spans a walk needs no more than chain order.
pub fn chain_order_is_enough()
    ensures { (areas : ℕ → Option Area) (f : Family) (spans : ℕ → List Span) (entry : ℕ → ℕ → Pte)
        → IsInOrder areas f spans → AreSpanned (view_with areas f spans entry) }
{}

/// Where the items of a merged frame are of roots, no chain holds two of them.
pub fn roots_are_apart()
    ensures { (areas : ℕ → Option Area) (f : Family) (spans : ℕ → List Span) (entry : ℕ → ℕ → Pte)
        (items : List Item) → IsInOrder areas f spans → AreRoots f items
        → AreRootsApart (view_with areas f spans entry) items }
{}

/// Items stay those of roots as long as what was made keeps its root, and where one is added that
/// has the root of an area's own anon_vma.
pub fn roots_stay()
    ensures stay { (old new : Family) (items : List Item) → KeepsRoots old new → AreRoots old items
        → AreRoots new items }
    ensures more { (areas : ℕ → Option Area) (f : Family) (spans : ℕ → List Span) (number own : ℕ)
        (area : Area) (i : Info) (index : ℕ) (items : List Item) → IsInOrder areas f spans
        → areas number ≡ Some area → area.anon ≡ Some own → f.info own ≡ Some i
        → AreRoots f items → AreRoots f (with_item (i.root, index) items) }
{}

/// A page is reached from the root of its area's own anon_vma, at the page's linear index.
pub fn a_root_reaches_the_page()
    ensures { (areas : ℕ → Option Area) (f : Family) (spans : ℕ → List Span) (entry : ℕ → ℕ → Pte)
        (number own : ℕ) (area : Area) (i : Info) (page : ℕ) → IsInOrder areas f spans
        → areas number ≡ Some area → area.anon ≡ Some own → f.info own ≡ Some i
        → has_page area page ≡ true
        → IsReached (view_with areas f spans entry) (i.root, index_of area page) area.pid page }
{}

/// Where a walk counts spans it counts areas: those linked to the anon_vma that hold the index.
pub fn looks_are_in_linked_areas()
    ensures { (areas : ℕ → Option Area) (f : Family) (spans : ℕ → List Span) (anon index : ℕ)
        → IsInOrder areas f spans → how_many (overlaps index) (spans anon)
        ≡ how_many (λ a. is_held index (areas a)) (f.users anon) }
{}
