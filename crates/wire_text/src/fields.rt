//! The fields of a packet, as text or as members of a JSON object.

ghost use Rattle.std.specs.Prelude.{◌≡◌, ◌<◌, ◌≤◌, ◌⊎◌, ◌∷◌, ◌++◌, [], length, take, false, true, Ok, Some, OnOk, string_bytes};
ghost use Rattle.std.specs.Fmt.{decimal};
ghost use Rattle.wire_text.specs.FieldTables.{members_in, members_of};
ghost use Rattle.wire_text.specs.Fields.{Puts, Word, Words, ended, member_form, nothing, nothing_after, value_of};
ghost use Rattle.wire_text.specs.Parts.{WritesMember};

use crate::long::write_text_at;
pub use crate::members::{FieldValue, MemberForm};
use crate::members::{
    push_closing, push_front_at, push_member, push_member_at, push_text_at, push_word_at,
};
use crate::put::PutWord;
use crate::stop::Stop;
use std::alloc::{AllocError, Allocator, Global};
use std::io::Write;
use std::marker::Model;

/// How fields are shown.
#[derive(Clone, Copy)]
pub enum FieldForm {
    Hidden,
    /// Each on a line of its own.
    Text,
    Json,
}

impl FieldForm {
    // How members are shown, where they are.
    fn members(self) -> Option<MemberForm>
        ensures { result ≡ member_form self }
    {
        match self {
            FieldForm::Hidden => None,
            FieldForm::Text => Some(MemberForm::Text),
            FieldForm::Json => Some(MemberForm::Json),
        }
    }
}

/// A field, with its name, or none.
#[derive(Clone, Copy)]
pub enum Field<'a> {
    /// The packet has none.
    Missing,
    Number(&'a str, u64),
    /// A set of flags.
    Flags(&'a str, u64),
    /// A text, where the bytes are one.
    Text(&'a str, &'a [u8]),
    Bytes(&'a str, &'a [u8]),
}

/// The fields of one packet, alone or after a text.
#[derive(Drop)]
pub struct Fields<A: Allocator + Copy = Global> {
    form: FieldForm,
    // How many bytes stand before the fields.
    begin: usize,
    text: String<A>,
}

impl<A: Allocator + Copy> Model for Fields<A> {
    ghost use Rattle.std.specs.Prelude.{◌≤◌, drop, length, string_bytes, take};
    ghost use Rattle.std.specs.Str.{IsUtf8};
    ghost use Rattle.wire_text.specs.Fields.{Written};

    ghost Value = { Written };

    ghost view = { λ fields. record {
      form = fields.form;
      before = take fields.begin (string_bytes fields.text);
      text = drop fields.begin (string_bytes fields.text);
    } };

    ghost invariant = { λ fields. (fields.begin ≤ length (string_bytes fields.text))
        × IsUtf8 (take fields.begin (string_bytes fields.text)) };
}

impl<A: Allocator + Copy> Fields<A> {
    ghost use Rattle.wire_text.specs.declared.fields.FieldForm.TheVariants.{Hidden};

    /// No fields, which are not shown before `begin`.
    pub fn new(alloc: A) -> Self
        ensures { result ≡ nothing Hidden }
    {
        Fields {
            form: FieldForm::Hidden,
            begin: 0,
            text: String::new(alloc),
        }
    }

    /// No fields, which stand after this text.
    pub fn after(form: FieldForm, text: String<A>) -> Self
        ensures { result ≡ nothing_after form (string_bytes text) }
    {
        Fields {
            form,
            begin: text.len(),
            text,
        }
    }

    /// The text before the fields, and theirs.
    pub fn into_text(self) -> String<A>
        ensures { string_bytes result ≡ self.before ++ self.text }
    {
        self.text
    }

    /// What was put so far.
    pub fn text(&self) -> &str
        ensures { result.now ≡ self.now.text }
    {
        &self.text.as_str()[self.begin..]
    }

    /// How fields are shown, where they are.
    pub fn shown_form(&self) -> Option<MemberForm>
        ensures { result ≡ member_form self.now.form }
    {
        self.form.members()
    }

    /// Begins the fields of another packet, after no text.
    pub fn begin(&mut self, form: FieldForm)
        ensures { self.new ≡ nothing form }
    {
        self.form = form;
        self.begin = 0;
        self.text.clear();
    }

    /// Puts a field.
    #[inline(always)]
    pub fn put(&mut self, name: &str, value: FieldValue<'_>) -> Result<(), AllocError>
        ensures { OnOk result (Puts ((name.now, value_of value.entry) ∷ []) self.old self.new) }
    {
        let Some(form) = self.form.members() else {
            return Ok(());
        };
        let is_first = self.text.len() == self.begin;
        let pushed = push_member(&mut self.text, form, is_first, name, value);
        if pushed.is_err() {
            self.begin = 0;
        }
        pushed
    }

    // Puts a field, where there is one.
    fn put_field(&mut self, field: Field<'_>) -> Result<(), AllocError>
        ensures { OnOk result (Puts (members_in field.entry) self.old self.new) }
    {
        match field {
            Field::Number(name, number) => self.put(name, FieldValue::Number(number)),
            Field::Flags(name, bits) => self.put(name, FieldValue::Flags(bits)),
            Field::Text(name, text) => self.put(name, FieldValue::Text(text)),
            Field::Bytes(name, bytes) => self.put(name, FieldValue::Bytes(bytes)),
            Field::Missing => Ok(()),
        }
    }

    /// Puts fields in their order.
    pub fn put_all(&mut self, fields: &[Field<'_>]) -> Result<(), AllocError>
        ensures { OnOk result (Puts (members_of fields.now) self.old self.new) }
    {
        'fields: for field in fields {
            self.put_field(*field)?;
        }
        Ok(())
    }

    // Puts the text that these bytes begin with, of this many bytes: whether as many are there.
    fn put_longer_in(
        &mut self,
        form: MemberForm,
        place: u64,
        bytes: &[u8],
        len: usize,
    ) -> Result<bool, AllocError>
        requires { member_form self.old.form ≡ Some form }
        ensures within { result ≡ Ok true → len ≤ length bytes.now }
        ensures put { result ≡ Ok true
            → Puts ((decimal place, Words (take len bytes.now)) ∷ []) self.old self.new }
        ensures not { result ≡ Ok false → (self.new ≡ self.old) × (length bytes.now < len) }
    {
        if len > bytes.len() {
            return Ok(false);
        }
        let is_first = self.text.len() == self.begin;
        match push_text_at(&mut self.text, form, is_first, place, &bytes[..len]) {
            Ok(()) => Ok(true),
            Err(error) => {
                self.begin = 0;
                Err(error)
            }
        }
    }

    /// Puts the text that these bytes begin with, of this many bytes, which has no name but its place:
    /// whether it has. Where fields are shown, that is where 32 bytes are there, and all of the text's;
    /// else nothing changes. It is known how fields are shown: a caller that puts many texts has code
    /// for each form, which doesn't ask again.
    #[inline(always)]
    pub fn put_short_in(
        &mut self,
        form: Option<MemberForm>,
        place: u64,
        bytes: &[u8],
        len: usize,
    ) -> Result<bool, AllocError>
        requires { form ≡ member_form self.old.form }
        ensures within { result ≡ Ok true → len ≤ length bytes.now }
        ensures put { result ≡ Ok true
            → Puts ((decimal place, Words (take len bytes.now)) ∷ []) self.old self.new }
        ensures not { result ≡ Ok false → (self.new ≡ self.old)
            × ((length bytes.now < 32) ⊎ (length bytes.now < len)) }
        ensures hidden { self.old.form ≡ Hidden → len ≤ length bytes.now → result ≡ Ok true }
    {
        let Some(form) = form else {
            return Ok(len <= bytes.len());
        };
        if bytes.len() < 32 {
            return Ok(false);
        }
        if len > 32 {
            return self.put_longer_in(form, place, bytes, len);
        }
        let is_first = self.text.len() == self.begin;
        match push_front_at(&mut self.text, form, is_first, place, bytes, len) {
            Ok(()) => Ok(true),
            Err(error) => {
                self.begin = 0;
                Err(error)
            }
        }
    }

    /// Puts a value that has no name but its place, counted from 0.
    #[inline]
    pub fn put_at(&mut self, place: u64, value: FieldValue<'_>) -> Result<(), AllocError>
        ensures { OnOk result (Puts ((decimal place, value_of value.entry) ∷ [])
            self.old self.new) }
    {
        let Some(form) = self.form.members() else {
            return Ok(());
        };
        let is_first = self.text.len() == self.begin;
        let pushed = push_member_at(&mut self.text, form, is_first, place, value);
        if pushed.is_err() {
            self.begin = 0;
        }
        pushed
    }

    /// Puts a word that has no name but its place.
    pub fn put_word_at<T: PutWord>(&mut self, place: u64, word: &T) -> Result<(), AllocError>
        ensures { OnOk result (Puts ((decimal place, Word (T.letters word.now)) ∷ [])
            self.old self.new) }
    {
        let Some(form) = self.form.members() else {
            return Ok(());
        };
        let is_first = self.text.len() == self.begin;
        let pushed = push_word_at(&mut self.text, form, is_first, place, word);
        if pushed.is_err() {
            self.begin = 0;
        }
        pushed
    }

    /// Puts a text that has no name but its place, and writes all so far but its end: a long text is
    /// shown part by part. Where it fails, what is left is no field.
    pub fn write_text_at<W: Write>(
        &mut self,
        place: u64,
        bytes: &[u8],
        output: &mut W,
    ) -> Result<(), Stop>
        ensures { OnOk result (WritesMember (decimal place, Words bytes.now) self.old self.new
            (W.contents output.old) (W.contents output.new)) }
    {
        let Some(form) = self.form.members() else {
            return Ok(());
        };
        let is_first = self.text.len() == self.begin;
        let written = write_text_at(&mut self.text, form, is_first, place, bytes, output);
        self.begin = 0;
        written
    }

    /// Ends the fields of the packet.
    pub fn end(&mut self) -> Result<(), AllocError>
        ensures { OnOk result (self.new ≡ ended self.old) }
    {
        let Some(form) = self.form.members() else {
            return Ok(());
        };
        let is_none = self.text.len() == self.begin;
        let pushed = push_closing(&mut self.text, form, is_none);
        if pushed.is_err() {
            self.begin = 0;
        }
        pushed
    }
}
