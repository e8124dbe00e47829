//! Worked examples for what stands for a state: views, and slots that are listed as free, that are
//! right but for one thing.

ghost use Rattle.std.specs.Prelude.{[], ◌∷◌};
ghost use Rattle.av_plain.specs.Choice.{ListsSlots};
ghost use Rattle.av_plain.specs.Device.{no_device};
ghost use Rattle.av_plain.specs.Stands.{AreasStand, Stands};
ghost use Rattle.av_laws.specs.Examples.{machine};
ghost use Rattle.av_examples.specs.Stands.{
  all_bad,
  areas_of_nobody,
  first_shown,
  none_mapped_merged,
  one_page,
  one_slot_on,
  only_named,
  past_the_device,
  read_only_shown,
  without_item,
  without_item_shown,
};

/// A process that doesn't live has no areas, not even an empty list of them. An area has the
/// protection of its pages, also where the state has the area so. A view stands for sound states
/// alone: for none with a merged frame that no entry names. Nor does it stand where a page of one
/// is found from none of the frame's items, also where the state has no others.
pub fn changed_parts_do_not_stand()
    ensures of_nobody { AreasStand areas_of_nobody [] → ⊥ }
    ensures other_protection { AreasStand read_only_shown one_page → ⊥ }
    ensures unsound { Stands (machine 4) first_shown no_device none_mapped_merged → ⊥ }
    ensures not_found { Stands (machine 1) without_item_shown no_device without_item → ⊥ }
{}

/// A slot in use is taken. A page is free only where it is a slot of the device, though as many are
/// free as there are to be. No free slot is left out.
pub fn slots_are_listed_as_they_are()
    ensures not_taken { ListsSlots (machine 4) only_named all_bad → ⊥ }
    ensures no_slot { ListsSlots (machine 4) one_slot_on past_the_device → ⊥ }
    ensures left_out { ListsSlots (machine 4) one_slot_on all_bad → ⊥ }
{}
