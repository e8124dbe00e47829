//! What a refused command leaves: all as it was, but for commands that end in the midst of a range,
//! and a swapoff.

ghost use Rattle.std.specs.Prelude.{◌≡◌, ◌⊎◌, ◌<◌, ◌&&◌, ◌==◌, ℕ, if◌then◌else◌, Bool, true, false};
ghost use Rattle.std.specs.Prelude.{List, Some, None};
ghost use Rattle.av_base.specs.Page.{page_of, pages_met, pages_of};
ghost use Rattle.av_base.specs.Words.{within};
ghost use Rattle.av_base.specs.declared.flags.Flag.{Flag};
ghost use Rattle.av_base.specs.declared.flags.Flag.TheVariants.{Locked};
ghost use Rattle.av_base.specs.declared.prot.Prot.{Prot};
ghost use Rattle.av_trace.specs.declared.advice.Advice.{Advice};
ghost use Rattle.av_trace.specs.declared.advice.Advice.TheVariants.{DontNeed};
ghost use Rattle.av_trace.specs.declared.command.Command.{Command};
ghost use Rattle.av_trace.specs.declared.command.Command.TheVariants.{Madvise, Mlock, Mprotect};
ghost use Rattle.av_trace.specs.declared.command.Command.TheVariants.{Munlock, Swapoff};
ghost use Rattle.av_trace.specs.declared.reply.Errno.{Errno};
ghost use Rattle.av_trace.specs.declared.reply.Errno.TheVariants.{Einval, Enomem};
ghost use Rattle.av_trace.specs.declared.reply.Answer.TheVariants.{Refused};
ghost use Rattle.av_trace.specs.declared.reply.Reply.{Reply};
ghost use Rattle.av_plain.specs.World.{ChangesOnly, World, pages, pages_to_hole, pages_to_locked};
ghost use Rattle.av_plain.specs.World.{wiped, with_page_flag, with_prot};
ghost use Rattle.av_plain.specs.Ledger.{Ledger, Setting, entry};
ghost use Rattle.av_plain.specs.Event.{Event, after_all};
ghost use Rattle.av_plain.specs.Step.{IsLegal, next_world};
ghost use Rattle.av_plain.specs.Refusal.{may_end_midway, refusal, tests};
ghost use Rattle.av_plain.specs.Load.{with_loads};
ghost use Rattle.av_plain.specs.Advice.{flag_of_advice};
ghost use Rattle.av_plain.specs.Map.{StopsAtHole};

/// A command that one of its tests refuses changes neither the memories nor the ledger; nor does
/// any other that is refused, but for those that end midway. A swapoff leaves the memories but for
/// what its loads make unclaimed; where it ends at a slot, nothing is said of the ledger.
pub fn refusals_change_nothing()
    ensures tested { (m : Setting) (w : World) (l : Ledger) (command : Command) (reply : Reply)
        (events : List Event) (error : Errno)
        → refusal (tests m w l command) ≡ Some error → IsLegal m w l command reply events
        → (reply.answer ≡ Refused error)
        × (next_world m w l events command reply.answer ≡ w) × (after_all l events ≡ l) }
    ensures others { (m : Setting) (w : World) (l : Ledger) (command : Command) (reply : Reply)
        (events : List Event) (error : Errno)
        → may_end_midway command ≡ false → IsLegal m w l command reply events
        → reply.answer ≡ Refused error
        → (next_world m w l events command reply.answer ≡ w) × (after_all l events ≡ l) }
    ensures swapoff { (m : Setting) (w : World) (l : Ledger) (k : ℕ) (reply : Reply)
        (events : List Event)
        → next_world m w l events (Swapoff k) reply.answer ≡ with_loads m w l events }
{}

/// An mprotect, mlock or munlock that no test refuses, and that is refused all the same, met a page
/// that isn't mapped: the pages before it have the protection, or are locked, or are not; no other
/// page has changed, nor has the ledger.
pub fn refusals_at_a_hole_change_the_pages_before_it()
    ensures mprotect { (m : Setting) (w : World) (l : Ledger) (p a len : ℕ) (prot : Prot)
        (reply : Reply) (events : List Event) (error : Errno)
        → refusal (tests m w l (Mprotect p a len prot)) ≡ None
        → IsLegal m w l (Mprotect p a len prot) reply events → reply.answer ≡ Refused error
        → StopsAtHole w p (page_of a) (pages_of len) (with_prot prot) error
        (next_world m w l events (Mprotect p a len prot) reply.answer)
        × (after_all l events ≡ l) }
    ensures mlock { (m : Setting) (w : World) (l : Ledger) (p a len : ℕ) (reply : Reply)
        (events : List Event) (error : Errno)
        → refusal (tests m w l (Mlock p a len)) ≡ None
        → IsLegal m w l (Mlock p a len) reply events → reply.answer ≡ Refused error
        → StopsAtHole w p (page_of a) (pages_met a len) (with_page_flag Locked true) error
        (next_world m w l events (Mlock p a len) reply.answer)
        × (after_all l events ≡ l) }
    ensures munlock { (m : Setting) (w : World) (l : Ledger) (p a len : ℕ) (reply : Reply)
        (events : List Event) (error : Errno)
        → refusal (tests m w l (Munlock p a len)) ≡ None
        → IsLegal m w l (Munlock p a len) reply events → reply.answer ≡ Refused error
        → StopsAtHole w p (page_of a) (pages_met a len) (with_page_flag Locked false) error
        (next_world m w l events (Munlock p a len) reply.answer)
        × (after_all l events ≡ l) }
{}

/// A madvise goes over holes: where it is about a flag and is refused by no test, all pages that
/// are mapped have the flag set or cleared, no other page has changed, nor has the ledger. A
/// `dontneed` ends before a locked page: those before it that are mapped are zeros then and have no
/// entry, and where none is locked, all that are mapped.
pub fn refused_advice_changes_the_pages_that_it_met()
    ensures flags { (m : Setting) (w : World) (l : Ledger) (p a len : ℕ) (advice : Advice)
        (flag : Flag) (set : Bool) (reply : Reply) (events : List Event) (error : Errno)
        → flag_of_advice advice ≡ Some (flag, set)
        → refusal (tests m w l (Madvise p a len advice)) ≡ None
        → IsLegal m w l (Madvise p a len advice) reply events → reply.answer ≡ Refused error
        → (error ≡ Enomem) × (pages_to_hole (pages w p) (page_of a) (pages_of len) < pages_of len)
        × ChangesOnly w p (page_of a) (pages_of len) (with_page_flag flag set)
        (next_world m w l events (Madvise p a len advice) reply.answer)
        × (after_all l events ≡ l) }
    ensures dontneed { (m : Setting) (w : World) (l : Ledger) (p a len : ℕ) (reply : Reply)
        (events : List Event) (error : Errno)
        → refusal (tests m w l (Madvise p a len DontNeed)) ≡ None
        → IsLegal m w l (Madvise p a len DontNeed) reply events → reply.answer ≡ Refused error
        → let n = pages_to_locked (pages w p) (page_of a) (pages_of len) in
        (((error ≡ Einval) × (n < pages_of len))
        ⊎ ((error ≡ Enomem) × (n ≡ pages_of len)
        × (pages_to_hole (pages w p) (page_of a) (pages_of len) < pages_of len)))
        × ChangesOnly w p (page_of a) n wiped
        (next_world m w l events (Madvise p a len DontNeed) reply.answer)
        × ((q page : ℕ) → entry (after_all l events) (q, page)
        ≡ (if q == p && within (page_of a) n page then None else entry l (q, page))) }
{}

/// An mlock that isn't refused leaves all of its pages locked, and no other page changed but by
/// loads: also where no frame could be had for one, or the device did not give it.
pub fn mlocks_lock_all_pages()
    ensures all { (m : Setting) (w : World) (l : Ledger) (p a len : ℕ) (reply : Reply)
        (events : List Event) → IsLegal m w l (Mlock p a len) reply events
        → ((error : Errno) → reply.answer ≡ Refused error → ⊥)
        → (pages_to_hole (pages w p) (page_of a) (pages_met a len) ≡ pages_met a len)
        × ChangesOnly (with_loads m w l events) p (page_of a) (pages_met a len)
        (with_page_flag Locked true) (next_world m w l events (Mlock p a len) reply.answer) }
{}
