//! Laws of lines and commands. These functions do nothing: their contracts are the laws.

ghost use Rattle.std.specs.Prelude.{◌≡◌, ◌≢◌, ℕ, List, [], ◌∷◌, ◌++◌, All, codes};
ghost use Rattle.dmr_core.specs.declared.command.Command.TheVariants as command;
ghost use Rattle.dmr_console.specs.Commands.{command_by};
ghost use Rattle.dmr_console.specs.Grammar.{alone, with_number, with_numbers};
ghost use Rattle.dmr_console.specs.Limits.{longest_line};
ghost use Rattle.dmr_console.specs.Lines.{first_octets_of_line, line_step_of, lines_in, open_in};
ghost use Rattle.dmr_console.specs.Steps.{line_steps_from, open_line_after};

use crate::line_cutter::LONGEST_LINE;

/// The constant is the number that the profile states: a line has at most 80 octets before its LF.
pub fn limits_are_stated()
    ensures { LONGEST_LINE ≡ longest_line }
{}

/// The octets before an LF are a line, or one that is too long, if none of them is an LF. The octets after the last LF
/// are still open.
pub fn lines_precede_their_ends()
    ensures line { (octets more : List ℕ) → All (λ octet. octet ≢ 10) octets
        → (lines_in (octets ++ 10 ∷ more) ≡ line_step_of octets ∷ lines_in more)
        × (open_in (octets ++ 10 ∷ more) ≡ open_in more) }
    ensures rest { (octets : List ℕ) → All (λ octet. octet ≢ 10) octets →
        (lines_in octets ≡ []) × (open_in octets ≡ octets) }
{}

/// The octets of a stream, taken one by one, produce exactly its lines, in whatever pieces they come. The lines of two
/// pieces are those of the first, then those of the second after the octets that the first leaves open.
pub fn lines_in_any_cutting()
    ensures whole { (octets : List ℕ)
        → (line_steps_from [] octets ≡ lines_in octets)
        × (open_line_after [] octets ≡ first_octets_of_line (open_in octets)) }
    ensures cut { (begun a b : List ℕ)
        → (line_steps_from begun (a ++ b)
        ≡ line_steps_from begun a ++ line_steps_from (open_line_after begun a) b)
        × (open_line_after begun (a ++ b) ≡ open_line_after (open_line_after begun a) b) }
    ensures pieces { (a b : List ℕ) →
        (lines_in (a ++ b) ≡ lines_in a ++ lines_in (open_in a ++ b))
        × (open_in (a ++ b) ≡ open_in (open_in a ++ b)) }
{}

/// The table of commands has this grammar (this project's profile): the command of each name, and of the words after it.
pub fn grammar_is_stated()
    ensures no_number { (words : List (List ℕ)) →
        (command_by (codes "status") words ≡ alone command.Status words)
        × (command_by (codes "slots") words ≡ alone command.Slots words)
        × (command_by (codes "stay") words ≡ alone command.Stay words) }
    ensures one_number { (words : List (List ℕ)) →
        (command_by (codes "radios") words ≡ with_number command.Radios 0 16777215 words)
        × (command_by (codes "calls") words ≡ with_number command.Calls 0 15 words)
        × (command_by (codes "lines") words ≡ with_number command.Lines 1 32 words)
        × (command_by (codes "drop") words ≡ with_number command.Drop 1 16777215 words)
        × (command_by (codes "move") words ≡ with_number command.Move 1 4094 words) }
    ensures two_numbers { (words : List (List ℕ)) →
        command_by (codes "end") words ≡ with_numbers command.End 0 15 0 1 words }
{}
