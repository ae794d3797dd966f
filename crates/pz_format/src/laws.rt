//! Laws, each the contract of a function that does nothing.

ghost use Rattle.std.specs.Prelude.{◌≡◌, ℕ, List, true, map};
ghost use Rattle.std.specs.List.{list_all};
ghost use Rattle.pz_syntax.specs.Classes.{ModelTree};
ghost use Rattle.pz_syntax.specs.ModelForm.{IsModel};
ghost use Rattle.pz_syntax.specs.ModelText.{text};
ghost use Rattle.pz_lexer.specs.declared.kept.Piece.{Piece};
ghost use Rattle.pz_lexer.specs.Kept.{AreKept, tokens_among};
ghost use Rattle.pz_format.specs.Layout.{layout};
ghost use Rattle.pz_format.specs.ReadingBack.{StandApart, ReadsBack, IsModelText, is_byte};

/// Where the tokens among pieces are the text of a model, no two neighbours merge. So a layout of
/// them reads back.
pub fn models_stand_apart()
    ensures apart { (model : ModelTree) (pieces : List Piece) → IsModel model →
        map (λ t. t.mark) (tokens_among pieces) ≡ text model → StandApart pieces }
{}

/// The layout of pieces of a text of bytes in which no two neighbours merge reads back, and the layout
/// of what is read of it is the same.
pub fn layouts_read_back()
    ensures back { (model : List ℕ) (pieces : List Piece) → AreKept model pieces →
        list_all is_byte model ≡ true → StandApart pieces → ReadsBack (layout pieces) pieces }
    ensures again { (model : List ℕ) (pieces : List Piece) → AreKept model pieces →
        list_all is_byte model ≡ true → StandApart pieces →
        (read : List Piece) → AreKept (layout pieces) read → layout read ≡ layout pieces }
{}

/// Read again, the layout of the text of a model has the same tokens and comments, but for their places;
/// so its tokens are the text of the same model, and its layout is the same.
pub fn models_read_back()
    ensures pieces { (model : ModelTree) (given : List ℕ) (pieces : List Piece) →
        IsModelText model given pieces → ReadsBack (layout pieces) pieces }
    ensures model { (model : ModelTree) (given : List ℕ) (pieces : List Piece) →
        IsModelText model given pieces → (read : List Piece) → AreKept (layout pieces) read →
        map (λ t. t.mark) (tokens_among read) ≡ text model }
    ensures again { (model : ModelTree) (given : List ℕ) (pieces : List Piece) →
        IsModelText model given pieces → (read : List Piece) → AreKept (layout pieces) read →
        layout read ≡ layout pieces }
{}
