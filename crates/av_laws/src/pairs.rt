//! Worked examples with two of a kind: entries of one frame, cached slots, writes in flight, pages.

ghost use Rattle.std.specs.Prelude.{◌≡◌, [], ◌∷◌, false, true, Some, None};
ghost use Rattle.av_trace.specs.declared.reply.Errno.TheVariants.{Eio, Enomem};
ghost use Rattle.av_trace.specs.declared.command.Command.TheVariants.{Read};
ghost use Rattle.av_trace.specs.declared.note.Note.TheVariants.{Failed, Loaded, Mapped, Written};
ghost use Rattle.av_trace.specs.declared.reply.Answer.TheVariants.{Bus, Data, Oom, Refused};
ghost use Rattle.av_plain.specs.Fault.{sparing};
ghost use Rattle.av_plain.specs.Ledger.{first_ledger, may_give};
ghost use Rattle.av_plain.specs.Pass.{IsPass};
ghost use Rattle.av_plain.specs.Step.{causes};
ghost use Rattle.av_plain.specs.Transcript.{causes_of};
ghost use Rattle.av_laws.specs.Examples.{
  MayCome,
  bad_first,
  full,
  one_written,
  paged_out,
  reply_with,
  slot,
  untold,
  with_entries,
  with_swap,
};
ghost use Rattle.av_laws.specs.Pairs.{
  ClaimsAfter,
  ClaimsAfterLoad,
  Leads,
  copied_and_gone,
  forks_and_moves,
  in_frame,
  no_page,
  one_of_each,
  put_and_loaded,
  second_cached,
  tail_stays,
  to_bad_page,
  two_areas,
  two_failed,
  two_of_each,
  with_areas,
};
ghost use Rattle.av_laws.specs.SwapSteps.{third_bad, third_bad_on};

/// The ledger after each event: a fork and a move of all kinds of entries, notes over two entries
/// of a frame, two cached slots and two writes in flight, a frame that stays at the tail, frames
/// that come and go, and two areas.
pub fn ledgers_follow()
    ensures forks_and_moves { Leads (with_entries one_of_each) forks_and_moves }
    ensures two_of_each { Leads (in_frame true true second_cached [] (5 ∷ 6 ∷ [])) two_of_each }
    ensures tail_stays { Leads (in_frame false false second_cached [] (6 ∷ 5 ∷ [])) tail_stays }
    ensures copied_and_gone { Leads first_ledger copied_and_gone }
    ensures two_areas { Leads (with_areas []) two_areas }
{}

/// No pass puts a frame at a bad page, and none at one behind the header's last.
pub fn bad_pages_are_not_given()
    ensures bad { IsPass bad_first (sparing full.world full.ledger None) full.ledger
        to_bad_page → ⊥ }
    ensures past_header { may_give third_bad None third_bad_on (slot 8) ≡ false }
{}

/// A load from a device that doesn't tell its pages makes unclaimed what the slot's pages held, in
/// each process, and nothing else; one from a device that tells them changes nothing. So does one
/// of a page that went to the slot in the same command; and a read shows what was loaded, which may
/// be anything.
pub fn loads_make_unclaimed()
    ensures its_page { ClaimsAfterLoad untold 1 0x7fffffffe000 None }
    ensures page_of_other { ClaimsAfterLoad untold 2 0x7fffffffe000 None }
    ensures its_other_page { ClaimsAfterLoad untold 1 0x7fffffffd000 (Some 5) }
    ensures other_page_of_other { ClaimsAfterLoad untold 2 0x7fffffffd000 (Some 6) }
    ensures told { ClaimsAfterLoad (with_swap 4 8 7) 1 0x7fffffffe000 (Some 7) }
    ensures put_before { ClaimsAfter untold one_written put_and_loaded 0x7fffffffd000 None }
    ensures shown { MayCome untold (paged_out 7 (0 ∷ [])).world (paged_out 7 (0 ∷ [])).ledger
        (Read 1 0x7fffffffe000 1)
        (reply_with (Data (9 ∷ [])) (Loaded (slot 1) 0 ∷ Mapped 1 0x7fffffffe000 0 ∷ [])) }
{}

/// What only failures of the device explain is counted: each `fail`, `bus` and EIO, of all
/// commands.
pub fn failures_are_counted()
    ensures bus_and_fails { causes
        (reply_with (Bus 0 []) (Failed (slot 1) ∷ Written (slot 2) ∷ Failed (slot 3) ∷ []))
        ≡ 3 }
    ensures eio { causes (reply_with (Refused Eio) []) ≡ 1 }
    ensures cached_when_out { causes
        (reply_with (Oom 0
        (record { pinned = 0; noslot = 1; fault = 2; locked = 0; ksm = 0 }) [])
        (Failed (slot 1) ∷
        []))
        ≡ 2 }
    ensures no_failure { causes (reply_with (Refused Enomem) (Written (slot 1) ∷ [])) ≡ 0 }
    ensures of_all { causes_of (two_failed ∷ no_page ∷ two_failed ∷ []) ≡ 5 }
{}
