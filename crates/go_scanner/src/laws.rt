//! What holds of every source.

ghost use Rattle.std.specs.Prelude.{◌≡◌, ◌⊎◌, ℕ, List};
ghost use Rattle.go_ast.specs.declared.token.Token.{Token};
ghost use Rattle.go_ast.specs.declared.token.Comment.{Comment};
ghost use Rattle.go_ast.specs.declared.fault.Fault.{Fault};
ghost use Rattle.go_ast.specs.Reading.{Reads, ScanFault};
ghost use Rattle.go_scanner.specs.Results.{IsRead, IsFaulty};

/// Each source has exactly one reading or exactly one fault, as the clauses say for all lists of
/// bytes. The call does nothing.
pub fn one_reading_or_fault()
    ensures either { (bytes : List ℕ) → IsRead bytes ⊎ IsFaulty bytes }
    ensures one_reading { (bytes : List ℕ) (tokens all : List Token) (comments every : List Comment)
        → Reads bytes tokens comments → Reads bytes all every
        → (tokens ≡ all) × (comments ≡ every) }
    ensures one_fault { (bytes : List ℕ) (fault other : Fault)
        → ScanFault bytes fault → ScanFault bytes other → fault ≡ other }
    ensures not_both { (bytes : List ℕ) (tokens : List Token) (comments : List Comment)
        (fault : Fault) → Reads bytes tokens comments → ScanFault bytes fault → ⊥ }
{}
