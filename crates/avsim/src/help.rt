//! What the program tells about itself.

ghost use Rattle.std.specs.Prelude.{ℕ, List, map, string_bytes, IfSome, IfNone};
ghost use Rattle.avsim.specs.Help.{AskFor};

/// The text of `--version`.
pub const VERSION: &str = "avsim 0.1.0\n";

/// The text of `--help`.
pub const HELP: &str = "\
avsim - replays a trace of memory commands against a model of Linux private
anonymous memory

Synopsis
  avsim run FRAMES [SWAP..] < TRACE
  avsim work SEED LINES FRAMES [SWAP..]
  avsim audit FRAMES [SWAP..]
  avsim --help | --version
  avsim run --help | avsim work --help | avsim audit --help

Description
  A machine with FRAMES frames of memory does the commands of a trace, one a
  line. With run they come from standard input, and for each it writes one reply
  to standard output. With work they are a load that it makes from a number, and
  it writes a summary of the replies. With audit it reads the replies, too, and
  says whether they are legal.

  The script avsim, which starts this program, has other words: build, test,
  replay, talk, page, why, check and help.

Command line
  SEED                   0 to 18446744073709551615; each number is a load
  LINES                  1 to 1000000 lines, behind the first ones
  FRAMES                 1 to 16384 frames of 4096 bytes
  SWAP..                 up to eight files, which are swap areas 0, 1, .. in
                         their order; run and work write pages over what they
                         have, but for the first one of each, which is all that
                         audit reads

Trace
  A line that is empty or begins with # says nothing. Words are separated by
  one space.
  P, Q                   processes, 1 to 32767
  A, B                   hexadecimal addresses
  LEN, OLD, NEW          lengths in bytes, rounded up to pages
  N                      1 to 4096 bytes, 1 to 16384 frames or slots, or a
                         priority, 0 to 32767
  HEX                    bytes, two hexadecimal digits for each, at most 4096
  PROT                   rw-, r--, --- or another of the eight
  ADVICE                 what is said of pages: one of seven words
  K, M                   a swap area, 0 to 7, and a page of it

Commands
  spawn P                process P begins, without memory
  fork P Q               process Q begins with the memory of P, as its pages are
                         advised; both have the same frames, and a write to one
                         of these gets a copy
  exit P                 process P ends; what it alone had is free
  mmap P LEN PROT        map pages of zeros at the greatest address where they
                         fit; the line may end with one of
    .. at A              at the page of A if they may go there, else as above
    .. fixed A           at A, in place of what is mapped there
    .. noreplace A       at A, unless something is mapped there
  munmap P A LEN         what is mapped in the range goes
  mprotect P A LEN PROT  the range gets another protection
  mremap P A OLD NEW     the OLD bytes at A become NEW: pages go, or pages of
                         zeros come behind; the line may end with one of
    .. maymove           they move to where they fit, if they can't grow here
    .. fixed B           they move to B, in place of what is mapped there
    .. dontunmap         they move, and zeros stay at A; OLD is NEW
    .. dontunmap B       as this, but to B
  madvise P A LEN ADVICE what is mapped in the range is advised so:
    .. dontneed          it reads as zeros, and its frames are free
    .. dontfork          a child doesn't get it
    .. dofork            it does again
    .. wipeonfork        a child has zeros in its place
    .. keeponfork        it doesn't any more
    .. mergeable         a merge looks at it
    .. unmergeable       it doesn't any more
  mlock P A LEN          the pages of the range are locked, and come in: no
                         reclaim and no pass takes their frames
  munlock P A LEN        they are locked no more
  read P A N             read N bytes at A
  write P A HEX          write the bytes HEX at A
  maps P                 the longest runs of pages with one protection
  areas P                the areas, with own anon_vmas, chains and flags
  rmap P A               process and page of each entry of the page's frame
  entry P A              the page-table entry: none, zeros, a frame or a slot
  stat                   how many frames, slots and processes there are
  swapon K               turn swap area K on, by its header; the line may end
                         with
    .. prio N            the greatest priority gives slots first, and of equal
                         ones the least K; without prio it is -1
  swapoff K              bring the pages of swap area K back, and turn it off
  slot K M               how many entries name a slot, and what caches it
  reclaim N              send the last N inactive frames out, or keep them
  age N                  move the last N active frames to the inactive list
  complete N             end the first N writes that are in flight
  merge                  let pages that hold the same bytes share a frame, where
                         they are advised so
  compact                move frames, so that those in use are the lowest

Replies
  ok, map A, data HEX, on SLOTS BAD, err NAME, what a report shows; or byte k
  is the first that wasn't served:
  segv k                 its page isn't mapped, or the protection forbids it
  oom k pinned= noslot= fault=
                         no frame could be freed; the numbers say why, with
                         locked= and ksm= where frames are locked or merged
  bus k                  the device didn't give its page
  err ENOMEM pinned= noslot= fault=
                         swapoff: no frame could be freed; what it brought
                         back stays so
  Then notes of what happened, each on a line that begins with a space:
  zero P A               the page's entry is the page of zeros now
  new P A f              it is frame f, zeroed
  copy P A f             it is frame f, a copy of the frame that it was
  load K:M f             frame f has the page of slot K:M, from the device
  map P A f              the page's entry was a slot, and is its frame f now
  put f K:M              frame f is cached at a free slot
  unmap f                each entry of frame f is its slot now
  start K:M              the write of a slot is in flight
  done K:M, fail K:M     it ended well, or not
  drop K:M               the slot is cached no longer
  keep f CAUSE           reclaim kept frame f: locked, ksm, writeback,
                         referenced, noslot, or its write has just started
  age f                  frame f is inactive now
  share f                frame f is merged: equal pages may share it
  join P A g             the page's entry is the merged frame g now
  move g f               frame f is now what frame g was

Example
  printf 'spawn 1\\nmmap 1 4096 rw-\\nwrite 1 7fffffffe000 41\\n' | avsim run 4

prints:      ok
             map 7fffffffe000
             ok
              new 1 7fffffffe000 0

Exit status
  0, or 2 usage, 3 a line that is no command, 4 a failed read, 5 a failed
  write, 6 out of memory, 7 too many lines, 8 a swap file that can't be opened.
  Of audit also 9 a reply that isn't legal, 10 a transcript that is too long
";

/// The text of `run --help`.
pub const RUN_HELP: &str = "\
avsim run - replays a trace from standard input

Synopsis
  avsim run FRAMES [SWAP..] < TRACE

  FRAMES                 1 to 16384 frames of 4096 bytes
  SWAP..                 up to eight files, which are swap areas 0, 1, .. in
                         their order, off until a swapon; pages are written
                         over what they have, but for the first one of each

  For each command, one a line, it writes one reply to standard output, and
  notes of what happened, each on a line that begins with a space. The commands
  and replies are those of avsim --help.

Example
  printf 'spawn 1\\nmmap 1 4096 rw-\\n' | avsim run 4
";

/// The text of `work --help`.
pub const WORK_HELP: &str = "\
avsim work - does a load that is made from a number, and sums it up

Synopsis
  avsim work SEED LINES FRAMES [SWAP..]

  SEED                   0 to 18446744073709551615; each number is a load
  LINES                  1 to 1000000 lines, behind the first ones
  FRAMES                 1 to 16384 frames of 4096 bytes
  SWAP..                 up to eight files, which are swap areas 0, 1, .. in
                         their order; pages are written over what they have,
                         but for the first one of each

  The first lines turn each swap area on, make process 1 and map 16 pages at
  10000000. Each further line is drawn: it reads or writes one of these pages in
  a process of 1 to 8, forks or ends one, reclaims, ages or completes, or maps,
  unmaps or protects a page. Nothing is read from standard input, and no reply
  is written. Where standard error is a terminal it shows how many hundredths of
  100000 lines or more are made.

Output
  lines N                how many lines there were, the first ones too
  ok N, map N, data N, on N, err N, segv N, bus N, oom N
                         how many replies began so, each on a line
  stat ..                what stat answers at the end
  The same words give the same output over swap files of the same sizes and
  headers, unless one of them fails.

Example
  avsim work 7 1000 64
";

/// The text of `audit --help`.
pub const AUDIT_HELP: &str = "\
avsim audit - says whether a transcript is legal for a trace

Synopsis
  avsim audit FRAMES [SWAP..]

  FRAMES                 1 to 16384 frames of 4096 bytes
  SWAP..                 the swap files of the run, as they were before it or
                         are behind it; of each its first page is read, and
                         none is written

  Standard input has a trace, a line that is %% and nothing else, and a
  transcript: one reply for each command, as run writes them. Which free frame
  or slot a reply takes is no matter. Where each reply is legal, legal is
  written to standard output. Else standard error has the number of the first
  one that isn't, that is missing, or that is one too many.

Example
  printf 'spawn 1\\n%%%%\\nok\\n' | avsim audit 4

prints:      legal
";

/// The text that the words ask for, where they ask for one and nothing else.
pub fn text_for(words: &[String]) -> Option<&'static str>
    ensures some { IfSome result (λ text. AskFor (map string_bytes words.now) text.now) }
    ensures none { IfNone result ((text : List ℕ) → AskFor (map string_bytes words.now) text → ⊥) }
{
    match words {
        [word] if word.as_str() == "--help" => Some(HELP),
        [word] if word.as_str() == "--version" => Some(VERSION),
        [verb, word] if word.as_str() == "--help" && verb.as_str() == "run" => Some(RUN_HELP),
        [verb, word] if word.as_str() == "--help" && verb.as_str() == "work" => Some(WORK_HELP),
        [verb, word] if word.as_str() == "--help" && verb.as_str() == "audit" => Some(AUDIT_HELP),
        _ => None,
    }
}
