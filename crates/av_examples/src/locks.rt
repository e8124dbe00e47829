//! Worked examples for locks: which pages an mlock brings in, whose pages lock a frame, and which
//! of the numbers of an out-of-memory a frame is in.

ghost use Rattle.std.specs.Prelude.{◌≡◌, [], ◌∷◌, false, true};
ghost use Rattle.av_base.specs.Flags.{no_flags};
ghost use Rattle.av_plain.specs.Fault.{is_locked};
ghost use Rattle.av_plain.specs.Lock.{accesses_of};
ghost use Rattle.av_plain.specs.Pass.{out_of};
ghost use Rattle.av_laws.specs.Examples.{in_writeback, machine};
ghost use Rattle.av_laws.specs.Flags.{locked, three_pages, topmost_like};
ghost use Rattle.av_laws.specs.Frames.{one_merged};
ghost use Rattle.av_examples.specs.Locks.{pinned_among_locked, pinned_and_merged};

/// An mlock brings in pages that are locked already, too. A frame is locked by the pages whose
/// entries name it, and not by those at the slot where it is cached.
pub fn locks_are_of_pages()
    ensures locked_already { accesses_of (three_pages locked no_flags no_flags) 0x7fffffffc 1
        ≡ (true, 0x7fffffffc) ∷ [] }
    ensures at_its_slot { is_locked (topmost_like locked) in_writeback.ledger 0 ≡ false }
{}

/// The frame that is about to be copied counts as pinned alone, though a page of it is locked, or
/// it is merged.
pub fn pinned_frames_count_once()
    ensures locked_too { out_of (machine 4) pinned_among_locked one_merged
        ≡ record { pinned = 1; noslot = 0; fault = 0; locked = 3; ksm = 0 } }
    ensures merged_too { out_of (machine 4) pinned_and_merged one_merged
        ≡ record { pinned = 1; noslot = 3; fault = 0; locked = 0; ksm = 0 } }
{}
