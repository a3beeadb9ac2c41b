//! Laws of the lines' definitions.
ghost use Rattle.std.specs.Prelude.{◌≡◌, List, ℕ, Some, Ok, Result};
ghost use Rattle.sdl_signal.specs.declared.ids.GateId.{GateId};
ghost use Rattle.sdl_signal.specs.declared.values.EnvLine.{EnvLine};
ghost use Rattle.sdl_signal.specs.declared.values.Signal.{Signal};
ghost use Rattle.sdl_signal.specs.declared.reading.LineFault.{LineFault};
ghost use Rattle.sdl_signal.specs.Line.{LineFits, line_text};
ghost use Rattle.sdl_signal.specs.Names.{Lexicon, IsLexicon};
ghost use Rattle.sdl_signal.specs.Reading.{HasDistinctNames, IsFirstFault, IsReading, line_without_to};

/// Where the names of each kind differ, a text is that of one line at most, and the text of a line breaks no rule. So what
/// `read_line` answers to a text that `line_of` wrote is the same gate and the same signal, without a TO part.
pub fn reading_gives_back_what_was_written()
    ensures one_line { (names : Lexicon) (l m : EnvLine) (text : List ℕ) → IsLexicon names → HasDistinctNames names → LineFits l → LineFits m
        → line_text names l ≡ Some text → line_text names m ≡ Some text → l ≡ m }
    ensures no_fault { (names : Lexicon) (l : EnvLine) (text : List ℕ) (fault : LineFault) → IsLexicon names → HasDistinctNames names → LineFits l
        → line_text names l ≡ Some text → ¬ IsFirstFault names text fault }
    ensures back { (names : Lexicon) (gate : GateId) (signal : Signal) (text : List ℕ) (read : Result EnvLine LineFault) → IsLexicon names → HasDistinctNames names
        → LineFits (line_without_to gate signal) → line_text names (line_without_to gate signal) ≡ Some text → IsReading names text read → read ≡ Ok (line_without_to gate signal) }
{}
