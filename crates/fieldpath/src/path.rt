//! Paths. What an element says stands in `elem`, its text in `elem_text`.
ghost use Rattle.std.specs.Prelude.{◌≡◌, [], ◌∷◌, ◌++◌, flat_map, map, IfOk, Ok, OnOk, OnErr, string_bytes};
ghost use Rattle.std.specs.Prelude.{refl};
ghost use Rattle.std.specs.Cmp.{eq_by_cmp_equiv, partial_equiv_from_equiv, partial_order_from_total};
ghost use Rattle.std.specs.Ordering.{as_partial_cmp, eq_by_cmp};
ghost use Rattle.fieldpath.specs.Elements.{read_element, shown, shown_element};
ghost use Rattle.fieldpath.specs.ElementViews.{element};
ghost use Rattle.fieldpath.specs.Paths.{path_cmp, path_cmp_total};

use crate::elem::Elem;
use crate::elem_text::ElemText;
use std::alloc::{AllocError, Global};
use std::cmp::Ordering;
use std::marker::Model;

/// A path into an object: its elements, and their texts, by which paths are ordered and looked up.
#[derive(Debug, Drop)]
pub struct Path {
    elems: Vec<Elem>,
    texts: Vec<ElemText>,
}

impl Model for Path {
    ghost use Rattle.std.specs.Prelude.{List, ℕ, map, string_bytes};
    ghost use Rattle.std.specs.Coded.{coded_ℕ, coded_list};
    ghost use Rattle.fieldpath.specs.ElementViews.{AreTextsOf};

    ghost Value = { List (List ℕ) };

    ghost coded = { coded_list (coded_list coded_ℕ) };

    ghost view = { λ p. map string_bytes p.texts.items };

    ghost invariant = { λ p. AreTextsOf p.elems.items p.texts.items };
}

impl Path {
    /// The empty path.
    pub fn new(alloc: Global) -> Path
        ensures { result ≡ [] }
    {
        Path {
            elems: Vec::new(alloc),
            texts: Vec::new(alloc),
        }
    }

    /// One element more, by its text. A refused push changes nothing.
    pub fn push(&mut self, alloc: Global, text: &ElemText) -> Result<(), AllocError>
        ensures ok { OnOk result (self.new ≡ self.old ++ string_bytes text.now ∷ []) }
        ensures err { OnErr result (self.new ≡ self.old) }
    {
        let elem = text.elem(alloc)?;
        self.texts.push(text.try_copy()?)?;
        match self.elems.push(elem) {
            Ok(()) => Ok(()),
            Err(_) => {
                drop(self.texts.pop());
                Err(AllocError)
            }
        }
    }

    /// Its elements.
    pub fn elems(&self) -> &[Elem]
        ensures { map Ok (map element result.now) ≡ map read_element self.now }
    {
        &self.elems
    }

    /// The texts of its elements.
    pub fn texts(&self) -> &[ElemText]
        ensures { map string_bytes result.now ≡ self.now }
    {
        &self.texts
    }

    /// The path as conflicts show it: `.spec.ports[name="web"].port`, `.spec.tags[="a"]`
    /// (Server-Side Apply, "Conflicts").
    pub fn shown(&self, alloc: Global) -> Result<String, AllocError>
        ensures { IfOk result (λ s. string_bytes s ≡ shown self.now) }
    {
        show_elems(alloc, &self.elems)
    }

    /// A copy with texts of its own.
    pub fn try_copy(&self, alloc: Global) -> Result<Path, AllocError>
        ensures { IfOk result (λ p. p ≡ self.now) }
    {
        Ok(Path {
            elems: copy_elems(alloc, &self.elems)?,
            texts: copy_texts(alloc, &self.texts)?,
        })
    }
}

impl PartialEq for Path {
    ghost eq = { eq_by_cmp path_cmp };

    ghost laws = { partial_equiv_from_equiv (eq_by_cmp_equiv path_cmp_total) };

    fn eq(&self, other: &Path) -> bool {
        self.cmp(other).is_eq()
    }
}

impl Eq for Path {
    ghost laws = { eq_by_cmp_equiv path_cmp_total };
}

impl PartialOrd for Path {
    ghost partial_cmp = { as_partial_cmp path_cmp };

    ghost laws = { partial_order_from_total path_cmp_total };

    fn partial_cmp(&self, other: &Path) -> Option<Ordering> {
        Some(self.cmp(other))
    }
}

/// Element by element by the bytes of the texts, and a prefix before what extends it.
impl Ord for Path {
    ghost cmp = { path_cmp };

    ghost total = { path_cmp_total };

    ghost matches_partial_cmp = { λ x y. refl };

    ghost matches_eq = { λ x y. refl };

    fn cmp(&self, other: &Path) -> Ordering {
        self.texts.cmp(&other.texts)
    }
}

fn show_elems(alloc: Global, elems: &[Elem]) -> Result<String, AllocError>
    ensures { IfOk result (λ s. string_bytes s ≡ flat_map (λ e. shown_element (element e)) elems.now) }
{
    let mut shown = String::new(alloc);
    for elem in elems {
        elem.push_shown(alloc, &mut shown)?;
    }
    Ok(shown)
}

fn copy_elems(alloc: Global, elems: &[Elem]) -> Result<Vec<Elem>, AllocError>
    ensures { IfOk result (λ v. map element v.items ≡ map element elems.now) }
{
    let mut copy = Vec::new(alloc);
    for elem in elems {
        copy.push(elem.try_copy(alloc)?)?;
    }
    Ok(copy)
}

fn copy_texts(alloc: Global, texts: &[ElemText]) -> Result<Vec<ElemText>, AllocError>
    ensures { IfOk result (λ v. map string_bytes v.items ≡ map string_bytes texts.now) }
{
    let mut copy = Vec::new(alloc);
    for text in texts {
        copy.push(text.try_copy()?)?;
    }
    Ok(copy)
}
