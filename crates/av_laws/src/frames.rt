//! What a merge and a compaction make of the frames.

ghost use Rattle.std.specs.Prelude.{◌≡◌, ◌⊎◌, ℕ, List, [], ◌∷◌, map, Some, None, true, false};
ghost use Rattle.av_trace.specs.declared.command.Command.TheVariants.{Compact, Merge};
ghost use Rattle.av_trace.specs.declared.command.Command.TheVariants.{Entry as AsksEntry};
ghost use Rattle.av_trace.specs.declared.note.Cause.TheVariants.{Ksm, Locked};
ghost use Rattle.av_trace.specs.declared.note.Note.TheVariants.{Copied, Joined, Kept, Moved};
ghost use Rattle.av_trace.specs.declared.note.Note.TheVariants.{Shared};
ghost use Rattle.av_trace.specs.declared.reply.Answer.{Answer};
ghost use Rattle.av_trace.specs.declared.reply.Answer.TheVariants.{Done, EntryFrame};
ghost use Rattle.av_trace.specs.declared.row.Row.{Row};
ghost use Rattle.av_plain.specs.World.{World};
ghost use Rattle.av_base.specs.Keys.{Key};
ghost use Rattle.av_plain.specs.Ledger.{Entry, InFrame, Ledger, Setting, entry};
ghost use Rattle.av_plain.specs.Ledger.{free_frames, walk};
ghost use Rattle.av_plain.specs.Choice.{ChoosesFrame};
ghost use Rattle.av_plain.specs.Event.{Event, FreeSorted, Noted, after_all, after_note};
ghost use Rattle.av_plain.specs.Event.{after_notes};
ghost use Rattle.av_plain.specs.Fault.{asks_copy};
ghost use Rattle.av_plain.specs.Pass.{frames_in_turn, out_of};
ghost use Rattle.av_plain.specs.Reclaim.{cause_of};
ghost use Rattle.av_plain.specs.Merge.{ClaimSame, Has, HasJoined, HoldClaims, Merges, candidates};
ghost use Rattle.av_plain.specs.Merge.{frame_named, merges};
ghost use Rattle.av_plain.specs.Compact.{Compacts, IsCompacted, next_move};
ghost use Rattle.av_plain.specs.Step.{IsLegal, next_world};
ghost use Rattle.av_plain.specs.Sound.{AllSound};
ghost use Rattle.av_laws.specs.Examples.{ComesBy, MayCome, at_rest, cached_by, machine};
ghost use Rattle.av_laws.specs.Examples.{reply_with};
ghost use Rattle.av_laws.specs.Examples.{with_swap};
ghost use Rattle.av_laws.specs.Frames.{all_join, all_zeros, keys_of_three, mergeable_pages};
ghost use Rattle.av_laws.specs.Frames.{all_locked, locked_pages, merged_alone, none_spared};
ghost use Rattle.av_laws.specs.Frames.{merged_at_head, merged_in_inactive, one_frame_twice};
ghost use Rattle.av_laws.specs.Frames.{one_merged, third_locked, three_pages, two_mergeable};
ghost use Rattle.av_laws.specs.Frames.{two_spared};

/// A merge changes no memory. After it all that were candidates in it, and claim equal bytes, have
/// one frame: over a device that tells its pages each byte is claimed. Only equal pages join: each
/// entry stays, or names a merged frame that holds what the one before held; so what frames were
/// chosen to hold they may hold afterwards, and no page gets other bytes.
pub fn merges_share_frames()
    ensures world { (m : Setting) (w : World) (l : Ledger) (events : List Event) (answer : Answer)
        (rows : List Row) → Merges m w l events answer rows
        → next_world m w l events Merge answer ≡ w }
    ensures one_frame { (m : Setting) (w : World) (l : Ledger) (events : List Event)
        (answer : Answer) (rows : List Row) → AllSound m w l
        → (h : Merges m w l events answer rows) (c d : Key × ℕ)
        → Has c (candidates m h.0 w l [] (map (λ (e : Key × Entry). e.0) l.entries))
        → Has d (candidates m h.0 w l [] (map (λ (e : Key × Entry). e.0) l.entries))
        → ClaimSame w c.0 d.0
        → frame_named (after_all l events) c.0 ≡ frame_named (after_all l events) d.0 }
    ensures joins { (m : Setting) (w : World) (l : Ledger) (events : List Event) (answer : Answer)
        (rows : List Row) → AllSound m w l → (h : Merges m w l events answer rows) (k : Key)
        → (entry (after_all l events) k ≡ entry l k) ⊎ HasJoined h.0 l (after_all l events) k }
    ensures bytes { (m : Setting) (w : World) (l : Ledger) (events : List Event) (answer : Answer)
        (rows : List Row) → AllSound m w l → (h : Merges m w l events answer rows)
        → HoldClaims w (after_all l events) h.0 }
{}

/// A compaction changes no memory. After it the frames in use are the lowest, as many as are in
/// use. Each is at a place of its own, and the ledger has there all that it had of the frame: its
/// walk and seen bits, and its place in the cache, in its list and among the merged ones.
pub fn compactions_take_the_lowest_frames()
    ensures world { (m : Setting) (w : World) (l : Ledger) (events : List Event) (answer : Answer)
        (rows : List Row) → Compacts m l events answer rows
        → next_world m w l events Compact answer ≡ w }
    ensures lowest { (m : Setting) (w : World) (l : Ledger) (events : List Event) (answer : Answer)
        (rows : List Row) → AllSound m w l → Compacts m l events answer rows
        → IsCompacted m l (after_all l events) }
{}

/// Three pages with equal bytes come to share the first one's frame, and the others' are free. A
/// frame goes over to the least free one, with its entries and as a merged one.
pub fn frames_are_shared_and_move()
    ensures shared { merges (machine 4) all_zeros mergeable_pages three_pages [] keys_of_three
        ≡ all_join }
    ensures free { free_frames (machine 4) (after_notes three_pages all_join) ≡ 0 ∷ 1 ∷ 3 ∷ [] }
    ensures walked { walk (after_notes three_pages all_join) 2 ≡ keys_of_three }
    ensures moves { next_move (machine 4) one_merged ≡ Some (Moved 3 0) }
    ensures no_more { next_move (machine 4) (after_note (Moved 3 0) one_merged) ≡ None }
    ensures merged { (after_note (Moved 3 0) one_merged).merged ≡ 0 ∷ [] }
    ensures goes_along { walk (after_note (Moved 3 0) one_merged) 0 ≡ (1, 0x10) ∷ (3, 0x10) ∷ [] }
{}

/// A merged frame is left alone, and shown as one: reclaim keeps it, unless a page of it is locked,
/// which is asked first; a pass goes over the others alone, and an out-of-memory counts it. A page
/// whose frame is that of a locked page does not join another.
pub fn merged_frames_are_left_alone()
    ensures kept { cause_of (machine 4) none_spared one_merged 3 ≡ Some Ksm }
    ensures locked_first { cause_of (machine 4) all_locked one_merged 3 ≡ Some Locked }
    ensures locked_in_flight { cause_of (with_swap 4 8 7) all_locked
        (cached_by (InFrame 0 false) true false).ledger 0 ≡ Some Locked }
    ensures shown { MayCome (machine 4) mergeable_pages one_merged (AsksEntry 1 0x10000)
        (reply_with (EntryFrame 3 true None true) []) }
    ensures no_turn { frames_in_turn none_spared one_merged ≡ 1 ∷ [] }
    ensures numbers { out_of (machine 4) two_spared one_merged
        ≡ record { pinned = 1; noslot = 1; fault = 0; locked = 1; ksm = 1 } }
    ensures locked_counts_first { out_of (machine 4) third_locked one_merged
        ≡ record { pinned = 0; noslot = 3; fault = 0; locked = 1; ksm = 0 } }
    ensures joins { merges (machine 4) all_zeros locked_pages three_pages [] keys_of_three ≡ [] }
{}

/// A page joins no other where it may not be merged, where its frame is merged, or where both have
/// one frame. It joins a merged frame though a page of that is locked.
pub fn merges_ask_each_page()
    ensures not_mergeable { merges (machine 4) all_zeros two_mergeable three_pages [] keys_of_three
        ≡ Shared 2 ∷ Joined 2 0x10000 2 ∷ [] }
    ensures joined_already { merges (machine 4) all_zeros mergeable_pages
        (after_notes three_pages all_join) [] keys_of_three ≡ [] }
    ensures has_the_frame { merges (machine 4) all_zeros mergeable_pages one_frame_twice []
        ((1, 0x10) ∷ (2, 0x10) ∷ []) ≡ [] }
    ensures locked_target { merges (machine 4) all_zeros locked_pages one_merged []
        ((1, 0x10) ∷ (2, 0x10) ∷ (3, 0x10) ∷ []) ≡ Joined 2 0x10000 3 ∷ [] }
{}

/// A frame that is kept as one of a locked page, or as a merged one, goes to the head of active,
/// and its entries are seen as before.
pub fn kept_frames_stay_seen()
    ensures ksm { after_note (Kept 3 Ksm) merged_in_inactive ≡ merged_at_head }
    ensures locked { after_note (Kept 3 Locked) merged_in_inactive ≡ merged_at_head }
{}

/// A frame goes over to the least free one, wherever that stands among the free ones, and comes in
/// front of them. In the end they rise, also where no frame went over.
pub fn compactions_order_free_frames()
    ensures moved_from_anywhere { ChoosesFrame (machine 4) one_merged (Noted (Moved 3 0))
        (2 ∷ 0 ∷ []) (3 ∷ 2 ∷ []) }
    ensures risen { ChoosesFrame (machine 4) (after_note (Moved 3 0) one_merged) FreeSorted
        (3 ∷ 2 ∷ []) (2 ∷ 3 ∷ []) }
    ensures no_move { ComesBy (machine 4) at_rest Compact (reply_with Done []) (FreeSorted ∷ []) }
    ensures one_move { IsLegal (machine 4) mergeable_pages one_merged Compact
        (reply_with Done (Moved 3 0 ∷ []))
        (Noted (Moved 3 0) ∷ FreeSorted ∷ []) }
{}

/// A write to a page copies a merged frame also where it is the last one: that frame is free then,
/// and merged no longer.
pub fn last_copies_free_merged_frames()
    ensures copied { asks_copy merged_alone 2 ≡ true }
    ensures merged { (after_note (Copied 1 0x10000 0) merged_alone).merged ≡ [] }
    ensures free { free_frames (machine 4) (after_note (Copied 1 0x10000 0) merged_alone)
        ≡ 1 ∷ 2 ∷ 3 ∷ [] }
    ensures lists { (after_note (Copied 1 0x10000 0) merged_alone).inactive ≡ 0 ∷ [] }
{}
