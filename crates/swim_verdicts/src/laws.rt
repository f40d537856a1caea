//! A law of words for the shell. It is the contract of a function that does nothing, so that it stays proved.

ghost use Rattle.std.specs.Prelude.{◌≡◌, ◌++◌, ℕ, List, Some};
ghost use Rattle.swim_verdicts.specs.ShellWords.{lead_of, shell_reads, shell_word};

/// In the word of a path a shell reads that path, with `./` in front if it begins with `-`.
pub fn a_shell_reads_the_path()
    ensures { (path : List ℕ) → shell_reads (shell_word path) ≡ Some (lead_of path ++ path) }
{}
