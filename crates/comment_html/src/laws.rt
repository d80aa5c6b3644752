//! What holds of the HTML of every comment.

ghost use Rattle.std.specs.Prelude.{ℕ, List, Option, IsTrue};
ghost use Rattle.text_out.specs.Escape.{escaped};
ghost use Rattle.comment_blocks.specs.declared.block.Block.{Block};
ghost use Rattle.comment_html.specs.Escapes.{is_harmless};
ghost use Rattle.comment_html.specs.Html.{html_of};
ghost use Rattle.comment_html.specs.Parts.{IsMarkup};

/// Whatever the texts of blocks and the addresses of names are, the HTML is made of fixed tags,
/// which nest, and of escaped texts, each between tags or in the quotation marks of a tag. So no
/// text ends an element or a tag, or starts one. The call does nothing.
pub fn html_is_tags_and_escaped_texts()
    ensures { (blocks : List Block) (names : List ℕ → Option (List ℕ))
        → IsMarkup blocks names (html_of blocks names) }
{}

/// An escaped text has none of `<`, `>`, `"` and `'`, and each `&` in it begins one of the five
/// references. The call does nothing.
pub fn escaped_texts_are_harmless()
    ensures { (text : List ℕ) → IsTrue (is_harmless (escaped text)) }
{}
