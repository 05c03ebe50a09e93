//! Laws of the definitions in specs/. Each is the contract of a function that does nothing: call it to have the fact.

ghost use Rattle.std.specs.Prelude.{◌≡◌, Bool, Err, List, Ok, Some, true, ℕ};
ghost use Rattle.error_objects.specs.declared.refusals.Refusal.{Refusal};
ghost use Rattle.serde_json.specs.Data.{Data};
ghost use Rattle.http_messages.specs.declared.messages.Message.{Message};
ghost use Rattle.json_forms.specs.Order.{IsInByteOrder};
ghost use Rattle.resource_schema.specs.declared.kinds.Kind.{Kind};
ghost use Rattle.resource_schema.specs.declared.targets.Target.{Target};
ghost use Rattle.resource_schema.specs.declared.values.Form.{Form};
ghost use Rattle.resource_schema.specs.declared.values.Place.{Place};
ghost use Rattle.resource_schema.specs.SchemaRules.{is_schema};
ghost use Rattle.task_forms.specs.declared.tasks.Plan.TheVariants.{Run};
ghost use Rattle.task_forms.specs.declared.tasks.Task.{Task};
ghost use Rattle.task_forms.specs.Fit.{IsFit};
ghost use Rattle.request_model.specs.Cursors.{IsPlaceOf, cursor_text, place_of_cursor};
ghost use Rattle.request_model.specs.Plans.{NamesItsSource, planned};
ghost use Rattle.request_model.specs.SchemaFile.{schema_of, SchemaNamesRise};
ghost use Rattle.request_model.specs.Targets.{IsKnownTarget, target_of_path};

use json_forms::{read_is_in_order, rendered_is_read_back, rendered_is_utf8, utf8_is_bytes};

/// What is read of a schema file keeps the rules of schemas, where the names of its types and fields stand in byte order,
/// as those of every value do that was read.
pub fn read_schema_keeps_rules()
    ensures rules { (d : Data) (schema : List Kind) → schema_of d ≡ Ok schema → SchemaNamesRise d → is_schema schema ≡ true }
    ensures names { (d : Data) → IsInByteOrder d → SchemaNamesRise d }
{}

/// A target that a path names is known: its numbers are those of the schema, and its id keeps the rule of ids.
pub fn found_target_is_known()
    ensures { (schema : List Kind) (path : List ℕ) (target : Target) → target_of_path schema path ≡ Some target → IsKnownTarget schema target }
{}

/// A task that the plan of a message gives is fit for the schema.
pub fn planned_task_is_fit()
    ensures { (schema : List Kind) (message : Message) (task : Task) → is_schema schema ≡ true → planned schema message ≡ Run task → IsFit schema task }
{
    read_is_in_order();
}

/// A cursor is accepted in one spelling alone, which is the text of its place, and the place has a value of each form
/// (Cursor Pagination profile, "Cursors").
pub fn cursor_has_one_spelling()
    ensures spelling { (forms : List (Form × Bool)) (text : List ℕ) (place : Place) → place_of_cursor forms text ≡ Some place → text ≡ cursor_text place }
    ensures forms { (forms : List (Form × Bool)) (text : List ℕ) (place : Place) → place_of_cursor forms text ≡ Some place → IsPlaceOf forms place }
{}

/// The text of a place with a value of each form is accepted as a cursor, and gives the place.
pub fn cursor_is_read_back()
    ensures { (forms : List (Form × Bool)) (place : Place) → IsPlaceOf forms place → place_of_cursor forms (cursor_text place) ≡ Some place }
{
    rendered_is_read_back();
    rendered_is_utf8();
    utf8_is_bytes();
}

/// A refusal of a request to a target names the source that its code asks for (JSON:API 1.1, "Error Objects"). In a list
/// of operations, what is not found is named.
pub fn refusal_names_its_source()
    ensures { (schema : List Kind) (message : Message) (target : Target) (query : List ℕ) → NamesItsSource schema message target query }
{}
