//! An object's text, written member after member. Its value stands in `object`, and it is read back in `read_back`.

ghost use Rattle.std.specs.Prelude.{◌≡◌, false, true, IfOk, OnOk, string_bytes};
ghost use Rattle.serde_json.specs.View.{members_view};
ghost use Rattle.json_texts.specs.Writing.{AppendsMembers, with_text};
ghost use Rattle.schema.specs.Lawful.{is_lawful, is_well_formed};
ghost use Rattle.schema.specs.Shape.{fields_in, shape, struct_of};
ghost use Rattle.typed.specs.Fitting.{IsContent};
ghost use Rattle.typed.specs.Printing.{print};
ghost use Rattle.objects.specs.InOrder.{then_type};
ghost use Rattle.objects.specs.Labels.{HasLabels};
ghost use Rattle.objects.specs.ObjectText as texts;
ghost use Rattle.objects.specs.ObjectText.{object_text};
ghost use Rattle.objects.specs.Views.{identity_of, stamp_of, state_of};

use crate::labels::count_labels;
use crate::managed_text::write_string;
use crate::object::{Envelope, Identity};
use crate::owned::Owned;
use crate::system::Stamp;
use json_texts::TextWriter;
use schema::Schema;
use serde_json::{Map, Value};
use std::alloc::{AllocError, Global};

/// Room for the text of most objects.
const ROOM: usize = 1024;

impl Owned {
    /// Writes the members of these fields up to `metadata`, with the type among them.
    fn write_type(
        &self,
        out: &mut TextWriter,
        alloc: Global,
        fields: &[(String, Schema)],
        of: Identity<'_>,
    ) -> Result<(), AllocError>
        ensures { is_well_formed (struct_of (fields_in fields.now) false) ≡ true → IsContent (struct_of (fields_in fields.now) false) self.now.tree
            → OnOk result (AppendsMembers (then_type (identity_of of.entry) (fields_in fields.now) self.now.tree) out.old out.new) }
    {
        let tree = &self.tree;
        tree.write_between(out, alloc, fields, None, Some("apiVersion"))?;
        write_string(out, alloc, "apiVersion", of.api_version)?;
        tree.write_between(out, alloc, fields, Some("apiVersion"), Some("kind"))?;
        write_string(out, alloc, "kind", of.kind)?;
        tree.write_between(out, alloc, fields, Some("kind"), Some("metadata"))
    }

    /// Writes the object by its value, under a schema that is no granular struct.
    fn write_value(
        &self,
        out: &mut TextWriter,
        alloc: Global,
        schema: &Schema,
        envelope: Envelope<'_>,
    ) -> Result<(), AllocError>
        ensures { is_lawful (shape schema.now) ≡ true → IsContent (shape schema.now) self.now.tree
            → OnOk result (out.new ≡ with_text (object_text (shape schema.now) (identity_of envelope.entry.of) (stamp_of envelope.entry.stamp) (state_of self.now)) out.old) }
    {
        let value = self.to_value(alloc, schema, envelope.of, envelope.stamp)?;
        out.value(alloc, &value)
    }

    /// Writes the object, where what is printed of `metadata` is at hand.
    fn write_object(
        &self,
        out: &mut TextWriter,
        alloc: Global,
        schema: &Schema,
        envelope: Envelope<'_>,
        metadata_members: Map<String, Value>,
    ) -> Result<(), AllocError>
        ensures { is_lawful (shape schema.now) ≡ true → IsContent (shape schema.now) self.now.tree → members_view metadata_members.entries ≡ texts.metadata_members (print (shape schema.now) self.now.tree)
            → OnOk result (out.new ≡ with_text (object_text (shape schema.now) (identity_of envelope.entry.of) (stamp_of envelope.entry.stamp) (state_of self.now)) out.old) }
    {
        let Some(fields) = schema.granular_fields() else {
            return self.write_value(out, alloc, schema, envelope);
        };
        out.begin_object(alloc)?;
        self.write_type(out, alloc, fields, envelope.of)?;
        out.name(alloc, "metadata")?;
        self.write_metadata(out, alloc, schema, envelope, metadata_members)?;
        self.tree
            .write_between(out, alloc, fields, Some("metadata"), None)?;
        out.end_object()
    }

    /// The object's text, where what is printed of `metadata` is at hand.
    fn text_with(
        &self,
        alloc: Global,
        schema: &Schema,
        envelope: Envelope<'_>,
        metadata_members: Map<String, Value>,
        capacity: usize,
    ) -> Result<String, AllocError>
        ensures { is_lawful (shape schema.now) ≡ true → IsContent (shape schema.now) self.now.tree → members_view metadata_members.entries ≡ texts.metadata_members (print (shape schema.now) self.now.tree)
            → IfOk result (λ t. string_bytes t ≡ object_text (shape schema.now) (identity_of envelope.entry.of) (stamp_of envelope.entry.stamp) (state_of self.now)) }
    {
        let mut out = TextWriter::with_capacity(alloc, capacity)?;
        self.write_object(&mut out, alloc, schema, envelope, metadata_members)?;
        Ok(out.into_text())
    }

    /// The object's text, with room for so many bytes from the start.
    pub(crate) fn sized_text(
        &self,
        alloc: Global,
        schema: &Schema,
        envelope: Envelope<'_>,
        capacity: usize,
    ) -> Result<String, AllocError>
        ensures { is_lawful (shape schema.now) ≡ true → IsContent (shape schema.now) self.now.tree
            → IfOk result (λ t. string_bytes t ≡ object_text (shape schema.now) (identity_of envelope.entry.of) (stamp_of envelope.entry.stamp) (state_of self.now)) }
    {
        let metadata_members = self.printed_metadata(alloc, schema)?;
        self.text_with(alloc, schema, envelope, metadata_members, capacity)
    }

    /// The object's text as `to_object` answers it, and how many labels it has, whatever its key is and what the
    /// system says: of one print.
    pub fn to_object_with_labels(
        &self,
        alloc: Global,
        schema: &Schema,
        of: Identity<'_>,
        stamp: Stamp<'_>,
    ) -> Result<(String, usize), AllocError>
        ensures text { is_lawful (shape schema.now) ≡ true → IsContent (shape schema.now) self.now.tree
            → IfOk result (λ p. string_bytes p.0 ≡ object_text (shape schema.now) (identity_of of.entry) (stamp_of stamp.entry) (state_of self.now)) }
        ensures labels { is_lawful (shape schema.now) ≡ true → IfOk result (λ p. HasLabels p.1 (shape schema.now) (state_of self.now)) }
    {
        let metadata_members = self.printed_metadata(alloc, schema)?;
        let labels = count_labels(&metadata_members);
        let envelope = Envelope { of, stamp };
        let text = self.text_with(alloc, schema, envelope, metadata_members, ROOM)?;
        Ok((text, labels))
    }

    /// The object's text: its value as compact JSON.
    pub fn to_object(
        &self,
        alloc: Global,
        schema: &Schema,
        of: Identity<'_>,
        stamp: Stamp<'_>,
    ) -> Result<String, AllocError>
        ensures { is_lawful (shape schema.now) ≡ true → IsContent (shape schema.now) self.now.tree
            → IfOk result (λ t. string_bytes t ≡ object_text (shape schema.now) (identity_of of.entry) (stamp_of stamp.entry) (state_of self.now)) }
    {
        self.sized_text(alloc, schema, Envelope { of, stamp }, ROOM)
    }
}
