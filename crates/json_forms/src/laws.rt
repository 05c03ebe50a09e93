//! Laws of the definitions in specs/. Each is the contract of a function that does nothing: call it to have the fact.

ghost use Rattle.std.specs.Prelude.{◌≡◌, ◌≢◌, ◌<◌, ◌++◌, ◌∷◌, ℕ, List, Some, IsUtf8, get_or, false};
ghost use Rattle.serde_json.specs.Data.{Data, object, Members, depth, put};
ghost use Rattle.serde_json.specs.Find.{pointer, unescape, get_member};
ghost use Rattle.serde_json.specs.Written.{compact_text, has_float};
ghost use Rattle.json_forms.specs.Json.{json_of};
ghost use Rattle.json_forms.specs.Order.{AreAscending, IsInByteOrder};
ghost use Rattle.json_forms.specs.Plain.{IsPlain, HasUtf8};
ghost use Rattle.json_forms.specs.Pointer.{escape};

/// What is rendered is read back as the same value (RFC 8259, section 2).
pub fn rendered_is_read_back()
    ensures { (d : Data) → IsPlain d → HasUtf8 d → depth d < 128 → json_of (compact_text d) ≡ Some d }
{}

/// What is rendered is UTF-8 (RFC 8259, section 8.1).
pub fn rendered_is_utf8()
    ensures { (d : Data) → IsPlain d → HasUtf8 d → IsUtf8 (compact_text d) }
{}

/// A plain value has no float, so `render` takes it.
pub fn plain_has_no_float()
    ensures { (d : Data) → IsPlain d → has_float d ≡ false }
{}

/// A value that was read has each name once, in byte order, at each object, and nests at most 127 deep.
pub fn read_is_in_order()
    ensures order { (bytes : List ℕ) (d : Data) → json_of bytes ≡ Some d → IsInByteOrder d }
    ensures nests { (bytes : List ℕ) (d : Data) → json_of bytes ≡ Some d → depth d < 128 }
{}

/// An object to which a member is put has each name once, in byte order, if it had so before.
pub fn put_keeps_order()
    ensures { (name : List ℕ) (d : Data) (ms : Members) → AreAscending ms → AreAscending (put name d ms) }
{}

/// The order in which members are put changes nothing, except that of two with one name the last stays.
pub fn put_in_any_order()
    ensures apart { (k l : List ℕ) (d e : Data) (ms : Members) → k ≢ l → put k d (put l e ms) ≡ put l e (put k d ms) }
    ensures last { (k : List ℕ) (d e : Data) (ms : Members) → put k d (put k e ms) ≡ put k d ms }
{}

/// An escaped name stands for the name (RFC 6901, section 4).
pub fn escape_is_undone()
    ensures { (name : List ℕ) → unescape (escape name) ≡ name }
{}

/// The pointer of a member leads to the member, where its front leads to the object (RFC 6901, section 4).
pub fn pointer_leads_to_member()
    ensures { (at name : List ℕ) (d : Data) (ms : Members) → pointer at d ≡ Some (object ms) → pointer (at ++ 47 ∷ escape name) d ≡ get_member name ms }
{}

/// UTF-8 is a list of bytes.
pub fn utf8_is_bytes()
    ensures { (bytes : List ℕ) → IsUtf8 bytes → (i : ℕ) → get_or bytes i 0 < 256 }
{}
