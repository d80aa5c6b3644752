//! What holds of the grammar itself.

ghost use Rattle.std.specs.Prelude.{◌≡◌, ◌≤◌, ◌∷◌, ◌↔◌, ℕ, List, Some, true};
ghost use Rattle.go_ast.specs.declared.declaration.TypeParam.{TypeParam};
ghost use Rattle.go_ast.specs.declared.token.Span.{Span};
ghost use Rattle.go_ast.specs.declared.tree.Signature.{Signature};
ghost use Rattle.go_ast.specs.declared.tree.TheConstants.{MAX_TYPE_LEVELS};
ghost use Rattle.go_ast.specs.declared.tree.TypeExpr.{TypeExpr};
ghost use Rattle.go_ast.specs.declared.word.Mark.{Mark};
ghost use Rattle.go_ast.specs.declared.word.Word.{Word};
ghost use Rattle.go_ast.specs.Cutting.{Encloses};
ghost use Rattle.go_ast.specs.Marks.{closes};
ghost use Rattle.go_ast.specs.TypeParameters.{AreTypeParams, Entries};
ghost use Rattle.go_ast.specs.Types.{Declared, IsSignature, Spells};
ghost use Rattle.type_parser.specs.Cut.{enclosed};

/// Words spell at most one type. The call does nothing.
pub fn spelled_once()
    ensures { (words : List Word) (x y : TypeExpr) → Spells MAX_TYPE_LEVELS words x
        → Spells MAX_TYPE_LEVELS words y → x ≡ y }
{}

/// What words spell within some levels they spell within more, and no other type is spelled within
/// any number of levels. The call does nothing.
pub fn levels_agree()
    ensures more { (levels further : ℕ) (words : List Word) (x : TypeExpr) → levels ≤ further
        → Spells levels words x → Spells further words x }
    ensures same { (levels others : ℕ) (words : List Word) (x y : TypeExpr)
        → Spells levels words x → Spells others words y → x ≡ y }
{}

/// Words spell at most one signature. The call does nothing.
pub fn signature_spelled_once()
    ensures { (words : List Word) (x y : Signature) → IsSignature (Spells MAX_TYPE_LEVELS) words x
        → IsSignature (Spells MAX_TYPE_LEVELS) words y → x ≡ y }
{}

/// Words declare at most one list of names, with at most one type. The call does nothing.
pub fn declared_once()
    ensures names { (words : List Word) (xs ys : List Span) (x y : TypeExpr)
        → Declared (Spells MAX_TYPE_LEVELS) words xs x
        → Declared (Spells MAX_TYPE_LEVELS) words ys y → xs ≡ ys }
    ensures typ { (words : List Word) (xs ys : List Span) (x y : TypeExpr)
        → Declared (Spells MAX_TYPE_LEVELS) words xs x
        → Declared (Spells MAX_TYPE_LEVELS) words ys y → x ≡ y }
{}

/// Entries spell at most one list of type parameters, and so do words. The call does nothing.
pub fn type_params_spelled_once()
    ensures entries { (entries : List (List Word)) (xs ys : List TypeParam) → Entries entries xs
        → Entries entries ys → xs ≡ ys }
    ensures words { (words : List Word) (xs ys : List TypeParam) → AreTypeParams words xs
        → AreTypeParams words ys → xs ≡ ys }
{}

/// What is cut at the bracket that closes the first word is what the two enclose, and what follows.
/// The call does nothing.
pub fn cut_where_enclosed()
    ensures { (opening close : Mark) (o : Word) (words inner rest : List Word) → o.mark ≡ opening
        → closes close ≡ true
        → (enclosed close words ≡ Some (inner, rest))
        ↔ Encloses opening close (o ∷ words) inner rest }
{}
