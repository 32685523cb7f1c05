//! Law: an object that is kept is what its own text says, whether a page or a line showed it. It is read in `object`.

ghost use Rattle.std.specs.Prelude.{◌≡◌, ℕ, List, Ok};
ghost use Rattle.indexer.specs.Objects.{Stored};
ghost use Rattle.decoder.specs.Wanted.{Wanted};
ghost use Rattle.decoder.specs.Pages.{Page, page_in};
ghost use Rattle.decoder.specs.Lines.{Line, line_in};
ghost use Rattle.decoder.specs.OwnTexts.{AreTheirTexts, IsItsText, ShowsItsText};

/// What is kept of an object that a list's page (`listed`) or a watch's line (`watched`) shows is read from the text
/// that is kept of it, whatever the page or the line has beside it. So two objects with one text are one object
/// (`same`), also where a list showed one and a watch the other.
pub fn objects_are_their_texts()
    ensures listed { (wanted : Wanted) (bytes : List ℕ) (p : Page) → page_in wanted bytes ≡ Ok p → AreTheirTexts wanted p.objects }
    ensures watched { (wanted : Wanted) (bytes : List ℕ) (l : Line) → line_in wanted bytes ≡ Ok l → ShowsItsText wanted l }
    ensures same { (wanted : Wanted) (o p : Stored) → IsItsText wanted o → IsItsText wanted p → o.text ≡ p.text → o ≡ p }
{}
