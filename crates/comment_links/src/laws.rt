//! Laws of the definitions.

ghost use Rattle.std.specs.Prelude.{◌≡◌, ℕ, List, Option};
ghost use Rattle.comment_blocks.specs.declared.block.LinkDef.{LinkDef};
ghost use Rattle.comment_links.specs.declared.part.Inline.{Inline};
ghost use Rattle.comment_links.specs.Inlines.{AreInlines};
ghost use Rattle.comment_links.specs.InlinesOf.{inlines_of};

/// A text consists of exactly one list of inlines, by any definitions and names: the one that the
/// plain program gives. The call does nothing.
pub fn text_has_one_list_of_inlines()
    ensures one { (links : List LinkDef) (address_of : List ℕ → Option (List ℕ)) (text : List ℕ)
        → AreInlines links address_of text (inlines_of links address_of text) }
    ensures no_other { (links : List LinkDef) (address_of : List ℕ → Option (List ℕ))
        (text : List ℕ) (inlines : List Inline) → AreInlines links address_of text inlines
        → inlines ≡ inlines_of links address_of text }
{}
