//! What holds of all hits and of every table of names.

ghost use Rattle.std.specs.Prelude.{◌≡◌, ◌<◌, ℕ, List, All, AllPairs, length, map};
ghost use Rattle.std.specs.List.{flat_map, sum_by};
ghost use Rattle.go_ast.specs.declared.declaration.File.{File};
ghost use Rattle.go_ast.specs.declared.token.Comment.{Comment};
ghost use Rattle.go_ast.specs.declared.token.Token.{Token};
ghost use Rattle.go_ast.specs.Reading.{Reads};
ghost use Rattle.go_ast.specs.Tokens.{text_of};
ghost use Rattle.ident_index.specs.Hits.{IsHitBelow, IsReadFile, ReadFile, hits_of};
ghost use Rattle.ident_index.specs.Hits.{hits_with_text, identifiers, source_and_hits_of};
ghost use Rattle.ident_index.specs.Postings.{HasNames, IsTableOf, NamedHit, Posting, hits_at};
ghost use Rattle.ident_index.specs.Postings.{hits_named, named_of, named_of_all};

/// The hits of a source with a reading have their names: a character begins at the offset of each,
/// and the letters and digits from there on are the text of its token. The call does nothing.
pub fn names_of_hits()
    ensures begin { (source : List ℕ) (tokens : List Token) (comments : List Comment) (file : File)
        (number : ℕ) → Reads source tokens comments
        → HasNames source (hits_of source tokens file number) }
    ensures named { (source : List ℕ) (tokens : List Token) (comments : List Comment) (file : File)
        (number : ℕ) → Reads source tokens comments
        → map (λ n. n.name) (named_of source (hits_of source tokens file number))
        ≡ map (text_of source) (identifiers tokens) }
{}

/// The hits of sources with readings that have a name are one for each identifier with that text,
/// in the order of the sources and of their tokens; and where the numbers of the files rise, so do
/// the hits, by file and offset. The call does nothing.
pub fn hits_of_a_name()
    ensures texts { (name : List ℕ) (files : List ReadFile) → All IsReadFile files
        → hits_named name (named_of_all (map source_and_hits_of files))
        ≡ flat_map (hits_with_text name) files }
    ensures rise { (name : List ℕ) (files : List ReadFile) → All IsReadFile files
        → AllPairs (λ a b. a.number < b.number) files
        → AllPairs IsHitBelow (flat_map (hits_with_text name) files) }
{}

/// The hits of a source with a reading rise strictly by their offsets. The call does nothing.
pub fn hits_rise()
    ensures { (source : List ℕ) (tokens : List Token) (comments : List Comment) (file : File)
        (number : ℕ) → Reads source tokens comments
        → AllPairs (λ a b. a.offset < b.offset) (hits_of source tokens file number) }
{}

/// Under each name a table of hits has exactly those that a filter of the whole list by that name
/// gives. The call does nothing.
pub fn hits_of_a_posting()
    ensures { (named : List NamedHit) (postings : List Posting) (name : List ℕ)
        → IsTableOf named postings → hits_at postings name ≡ hits_named name named }
{}

/// The same hits have one table. The call does nothing.
pub fn one_table()
    ensures { (named : List NamedHit) (postings other : List Posting)
        → IsTableOf named postings → IsTableOf named other → postings ≡ other }
{}

/// A table has as many hits as the list that it is the table of, and a file as many as it has
/// identifiers. The call does nothing.
pub fn hits_are_counted()
    ensures table { (named : List NamedHit) (postings : List Posting) → IsTableOf named postings
        → sum_by (λ p. length p.hits) postings ≡ length named }
    ensures file { (source : List ℕ) (tokens : List Token) (file : File) (number : ℕ)
        → length (hits_of source tokens file number) ≡ length (identifiers tokens) }
{}
