// Laws of the states of the lexical machine and of the plain reading by it, each on a function that does nothing.
ghost use Rattle.std.specs.Prelude.{◌≡◌, ◌≤◌, ◌<◌, ℕ, ◌+◌, List, ◌++◌, length, slice_get, slice_index_or, slice_range, true, Some};
ghost use Rattle.jx_lex.specs.declared.kind.Kind.{Kind};
ghost use Rattle.jx_lex.specs.declared.alphabet.state.LexState.{LexState};
ghost use Rattle.jx_lex.specs.declared.alphabet.state.LexState.TheVariants as state;
ghost use Rattle.jx_lex.specs.Lex.{lex};
ghost use Rattle.jx_lex.specs.Moves.{go, move};
ghost use Rattle.jx_lex.specs.Ordinal.{all_states, ordinal};
ghost use Rattle.jx_lex.specs.Uneventful.{AllKeep, Leads};
ghost use Rattle.jx_lex.specs.Token.{IsToken};
ghost use Rattle.jx_lex.specs.TokenStates.{IsRead, in_token, mark_of};
ghost use Rattle.jx_lex.specs.TokenSteps.{GapStep, TokenStep};
ghost use Rattle.jx_lex.specs.TwoPieces.{joined};

/// Bytes that keep the state and have no event may be skipped, and so may those that lead back to it.
pub fn skipped_bytes_without_events()
    ensures kept { (s : LexState) (at : ℕ) (run bytes : List ℕ) → AllKeep s run → lex s at (run ++ bytes) ≡ lex s (at + length run) bytes }
    ensures led { (s t : LexState) (at : ℕ) (run bytes : List ℕ) → Leads s run t → lex s at (run ++ bytes) ≡ lex t (at + length run) bytes }
{}

/// Bytes are read part by part: the second goes on in the state that the first leads to, and after a fault nothing is
/// read.
pub fn lex_of_two_parts()
    ensures two { (s : LexState) (at : ℕ) (first rest : List ℕ) → lex s at (first ++ rest) ≡ joined (lex s at first) (λ next. lex next (at + length first) rest) }
    ensures stretch { (text : List ℕ) (a b c : ℕ) (s : LexState) → a ≤ b → b ≤ c → b ≤ length text
        → lex s a (slice_range text a c) ≡ joined (lex s a (slice_range text a b)) (λ next. lex next b (slice_range text b c)) }
{}

/// Exactly the tokens of RFC 8259 (sections 3, 6 and 7) are read as one token. Also what a byte may do, in a token and
/// between tokens.
pub fn grammar_of_tokens()
    ensures reads { (kind : Kind) (bytes : List ℕ) → IsToken kind bytes → IsRead (mark_of kind) bytes }
    ensures tokens { (kind : Kind) (bytes : List ℕ) → IsRead (mark_of kind) bytes → IsToken kind bytes }
    ensures stays { (s next : LexState) (byte : ℕ) → in_token s ≡ true → move s byte ≡ go next → in_token next ≡ true }
    ensures steps { (s : LexState) (byte : ℕ) → in_token s ≡ true → TokenStep s byte }
    ensures gaps { (byte : ℕ) → GapStep byte }
{}

/// Each state stands in the list of all states at its ordinal, and the state that stands at a number has that ordinal.
pub fn state_ordinals()
    ensures low { (s : LexState) → ordinal s < 32 }
    ensures state { (s : LexState) → slice_get all_states (ordinal s) ≡ Some s }
    ensures ordinal { (n : ℕ) → n < 32 → ordinal (slice_index_or all_states n state.Gap) ≡ n }
{}
