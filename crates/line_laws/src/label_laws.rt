//! Laws of what selects an object: the labels that selectors see, at the server and at the client, and the name. Each function
//! does nothing; what it promises is the law. Labels are read in the crates `lists` and `decoder`, selectors in `selector`.

ghost use Rattle.line_laws.specs.Labels.{LabelsAreOfContents};
ghost use Rattle.line_laws.specs.LabelReaders.{ReadersAgree};
ghost use Rattle.line_laws.specs.Names.{KeysNameTexts, LabelSelectorsAskLabels, NamesAreOfObjects, NamesSelectObjects};

/// The labels that are read of an object's text are those of the content that the text was printed of.
pub fn labels_are_of_contents()
    ensures { LabelsAreOfContents }
{}

/// Of a text that a client takes as an object, server and client read the same labels.
pub fn readers_agree()
    ensures { ReadersAgree }
{}

/// What the text of a label selector asks, an object's labels alone decide, whatever its name is.
pub fn label_selectors_ask_labels()
    ensures { LabelSelectorsAskLabels }
{}

/// The name that is read of an object's text is the object's.
pub fn names_are_of_objects()
    ensures { NamesAreOfObjects }
{}

/// So the name and the labels by which an object is selected, that of its key and those of its text, are its text's.
pub fn keys_name_texts()
    ensures { KeysNameTexts }
{}

/// `metadata.name=NAME` selects just the objects of that name.
pub fn names_select_objects()
    ensures { NamesSelectObjects }
{}
