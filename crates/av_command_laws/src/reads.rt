//! The bytes of `read`.

ghost use Rattle.std.specs.Prelude.{◌≡◌, ℕ, List, false};
ghost use Rattle.av_plain.specs.Access.{Accesses, End, Reads, bytes_served, pages_of_access};
ghost use Rattle.av_plain.specs.Event.{Event};
ghost use Rattle.av_plain.specs.Ledger.{Ledger, Setting};
ghost use Rattle.av_plain.specs.World.{World, pages};
ghost use Rattle.av_command_laws.specs.Claimed.{IsClaimed};

/// What a read shows of memories of which nothing is forgotten is one.
pub fn a_read_shows_one()
    ensures { (m : Setting) (w : World) (l : Ledger) (p a n : ℕ) (events : List Event) (end : End)
        (shown others : List ℕ) → IsClaimed w
        → Accesses m w l p (pages_of_access false a n) events end
        → Reads (pages w p) a (bytes_served a n end) shown
        → Reads (pages w p) a (bytes_served a n end) others → shown ≡ others }
{}
