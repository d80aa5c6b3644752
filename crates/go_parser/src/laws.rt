//! What holds of the grammar itself.

ghost use Rattle.std.specs.Prelude.{◌≡◌, ◌⊎◌, ℕ, List};
ghost use Rattle.go_ast.specs.declared.declaration.Decl.{Decl};
ghost use Rattle.go_ast.specs.declared.declaration.File.{File};
ghost use Rattle.go_ast.specs.declared.fault.Fault.{Fault};
ghost use Rattle.go_ast.specs.declared.token.Token.{Token};
ghost use Rattle.go_ast.specs.declared.word.Word.{Word};
ghost use Rattle.go_ast.specs.Declarations.{IsDecl};
ghost use Rattle.go_ast.specs.Files.{FileFault, SpellsFile};

/// A chunk spells at most one declaration. The call does nothing.
pub fn declaration_spelled_once()
    ensures { (chunk : List Word) (x y : Decl) → IsDecl chunk x → IsDecl chunk y → x ≡ y }
{}

/// The tokens of a source spell exactly one file or have exactly one fault, as the clauses say for
/// all lists of bytes and all lists of tokens. The call does nothing.
pub fn one_file_or_fault()
    ensures either { (source : List ℕ) (tokens : List Token)
        → ((file : File) × SpellsFile source tokens file)
        ⊎ ((fault : Fault) × FileFault source tokens fault) }
    ensures one_file { (source : List ℕ) (tokens : List Token) (x y : File)
        → SpellsFile source tokens x → SpellsFile source tokens y → x ≡ y }
    ensures one_fault { (source : List ℕ) (tokens : List Token) (x y : Fault)
        → FileFault source tokens x → FileFault source tokens y → x ≡ y }
    ensures not_both { (source : List ℕ) (tokens : List Token) (file : File) (fault : Fault)
        → SpellsFile source tokens file → FileFault source tokens fault → ⊥ }
{}
