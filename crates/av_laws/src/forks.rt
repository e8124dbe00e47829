//! Worked examples for forks: the areas and anon_vmas that a child gets.

ghost use Rattle.std.specs.Prelude.{[], ◌∷◌, Some};
ghost use Rattle.av_plain.specs.Areas.{no_anons, root_anon};
ghost use Rattle.av_laws.specs.Areas.{area, area_of, child, family, four, one_root, root};
ghost use Rattle.av_laws.specs.Examples.{read_write};
ghost use Rattle.av_laws.specs.Forks.{
  ForksTo,
  below,
  four_deep,
  grandchild,
  of_two,
  sibling,
  siblings,
  three_of_root,
  two_of_root,
};
ghost use Rattle.av_laws.specs.Flags.{wiped_off};

/// A child gets each area of its parent. One without anon_vma has none in the child; else it has an
/// own one there. That is a new one, the last of its chain, whose parent is the parent's own; or
/// the lowest of that chain that has fewer than two children, is no area's own and is no root, with
/// the whole chain. Areas go in turn, by rising address: so the second of two has another. One that
/// is left out doesn't go, and one that is wiped has no anon_vma in the child.
pub fn forks_follow()
    ensures bare { ForksTo four no_anons (record (area 0x10 0x14 read_write) { pid = 2 } ∷ []) [] }
    ensures new_below_root { ForksTo (area_of 0 0x10 0x14 ∷ []) one_root (of_two 1 0x10 0x14 ∷ [])
        (Some (root_anon 0) ∷ Some (below 0 (0 ∷ 1 ∷ [])) ∷ []) }
    ensures grandchild { ForksTo (area_of 1 0x10 0x14 ∷ []) family (of_two 2 0x10 0x14 ∷ [])
        (Some root ∷ Some child ∷ Some grandchild ∷ []) }
    ensures lowest_again { ForksTo (area_of 3 0x10 0x14 ∷ []) four_deep (of_two 1 0x10 0x14 ∷ [])
        (Some root ∷ Some (below 0 (0 ∷ 1 ∷ 2 ∷ 3 ∷ [])) ∷ Some grandchild
        ∷ Some (below 2 (0 ∷ 1 ∷ 2 ∷ 3 ∷ [])) ∷ []) }
    ensures of_two_children { ForksTo (area_of 2 0x10 0x14 ∷ []) siblings (of_two 4 0x10 0x14 ∷ [])
        (Some root ∷ Some child ∷ Some grandchild ∷ Some sibling
        ∷ Some (below 2 (0 ∷ 1 ∷ 2 ∷ 4 ∷ [])) ∷ []) }
    ensures two_in_turn { ForksTo two_of_root one_root
        (of_two 1 0x10 0x12 ∷ of_two 2 0x14 0x16 ∷ [])
        (Some (root_anon 0) ∷ Some (below 0 (0 ∷ 1 ∷ [])) ∷ Some (below 0 (0 ∷ 2 ∷ [])) ∷ []) }
    ensures by_flags { ForksTo three_of_root one_root
        (record (area 0x12 0x14 read_write) { pid = 2; flags = wiped_off }
        ∷ of_two 1 0x14 0x16 ∷ [])
        (Some (root_anon 0) ∷ Some (below 0 (0 ∷ 1 ∷ [])) ∷ []) }
{}
