//! Worked examples for merging: which pages are candidates, in which order they have their turns,
//! what they join, and what frames may be held to have.

ghost use Rattle.std.specs.Prelude.{◌≡◌, [], ◌∷◌};
ghost use Rattle.av_trace.specs.declared.command.Command.TheVariants.{Merge};
ghost use Rattle.av_trace.specs.declared.note.Note.TheVariants.{Joined};
ghost use Rattle.av_trace.specs.declared.reply.Answer.TheVariants.{Done};
ghost use Rattle.av_plain.specs.Merge.{HoldClaims, merges};
ghost use Rattle.av_laws.specs.Examples.{MayCome, machine, reply_with};
ghost use Rattle.av_laws.specs.Frames.{all_join, all_zeros, keys_of_three, mergeable_pages};
ghost use Rattle.av_laws.specs.Frames.{one_merged, three_pages};
ghost use Rattle.av_examples.specs.Merging.{
  all_like,
  first_byte_claimed,
  joins_forked,
  left_out_page,
  one_forked,
  read_only_page,
  second_joins,
  two_active,
  two_merged,
  two_pages,
  wiped_page,
};

/// A page that may be merged is a candidate also where it can't be written, where a fork wipes it
/// or leaves it out, where its frame is active, and where another entry names its frame.
pub fn pages_are_candidates()
    ensures not_written { merges (machine 4) all_zeros (all_like read_only_page) three_pages []
        keys_of_three ≡ all_join }
    ensures wiped { merges (machine 4) all_zeros (all_like wiped_page) three_pages [] keys_of_three
        ≡ all_join }
    ensures left_out { merges (machine 4) all_zeros (all_like left_out_page) three_pages []
        keys_of_three ≡ all_join }
    ensures active { merges (machine 4) all_zeros mergeable_pages two_active [] keys_of_three
        ≡ all_join }
    ensures forked { merges (machine 4) all_zeros mergeable_pages one_forked [] keys_of_three
        ≡ joins_forked }
{}

/// Pages have their turns by process and address, and join the least merged frame that holds the
/// same. A frame is held to have what its pages claim, also where they claim one byte alone.
pub fn pages_join_in_turn()
    ensures by_address { MayCome (machine 4) mergeable_pages two_pages Merge
        (reply_with Done second_joins) }
    ensures least { merges (machine 4) all_zeros mergeable_pages two_merged [] keys_of_three
        ≡ Joined 2 0x10000 2 ∷ [] }
    ensures one_byte { HoldClaims first_byte_claimed one_merged all_zeros → ⊥ }
{}
