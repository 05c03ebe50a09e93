ghost use Rattle.std.specs.Prelude.{◌≡◌, List, ℕ, Bool, IfSome, IsTrue};
ghost use Rattle.std.specs.List.{AllByRecursion};
ghost use Rattle.ident_rules.specs.declared.key.Key.{Key};
ghost use Rattle.resource_schema.specs.declared.kinds.Kind.{Kind};
ghost use Rattle.world_cells.specs.World.{World, linked};
ghost use Rattle.world_cells.specs.declared.rows.Row.{Row};
ghost use Rattle.task_forms.specs.Meaning.{IsLawful};
ghost use Rattle.task_forms.specs.declared.operations.Operation.{Operation};
ghost use Rattle.task_forms.specs.declared.queries.Page.{Page};
ghost use Rattle.task_forms.specs.declared.queries.Path.{Path};
ghost use Rattle.task_forms.specs.declared.queries.SortKey.{SortKey};
ghost use Rattle.task_forms.specs.declared.tasks.Fetch.{Fetch};
ghost use Rattle.task_forms.specs.declared.tasks.ReplyForm.{ReplyForm};
ghost use Rattle.store_model.specs.Valid.{IsValid, IsValidRow};
ghost use Rattle.store_model.specs.Run.{run};
ghost use Rattle.store_model.specs.Pages.{rows_of, rows_at, sorted};
ghost use Rattle.store_model.specs.declared.pages.Selected.{Selected};
ghost use Rattle.store_model.specs.Included.{included};
ghost use Rattle.store_model.specs.Document.{document};
ghost use Rattle.store_model.specs.Answer.{answer};
ghost use Rattle.store_model.specs.Resource.{resource, Fields};
ghost use Rattle.json_forms.specs.Plain.{IsPlain};
ghost use Rattle.resource_schema.specs.SchemaRules.{is_schema};
ghost use Rattle.task_forms.specs.Fit.{IsFit};
ghost use Rattle.task_forms.specs.declared.tasks.Task.{Task};
ghost use Rattle.store_model.specs.StoreMeaning.{meaning_of};
ghost use Rattle.store_model.specs.Laws.{AreApart, AreIncluded, AreRowsAt, AreRowsOf, IsAllOrNothing, NamesSources, PageIsExact, DocumentIsLinked, DocumentShows, IsPage, IsPlaced, HasPlainBody, AreSorted, ShowsResources, is_list_form};

/// The store's tasks keep what every meaning of tasks keeps: the empty world is valid and has no cell, a fit task leads
/// from a valid world to a valid one, and a fetch and a reply of status 400 or above change nothing.
pub fn store_is_lawful()
    ensures { (schema : List Kind) → IsLawful (meaning_of schema) }
{}

/// A list of operations is done as a whole, or its first refused operation is told and the world stays (Atomic Operations
/// extension, "Processing").
pub fn lists_are_all_or_nothing()
    ensures { (schema : List Kind) (w : World) (operations : List Operation) (form : ReplyForm) → IsAllOrNothing schema w operations form (run schema form w operations) }
{}

/// A refused change blames what the code of its refusal asks for (JSON:API 1.1, "Error Objects"), where the operations
/// are those of a plain request or of a list, as the form of the reply says.
pub fn refusals_are_sourced()
    ensures { (schema : List Kind) (form : ReplyForm) (w : World) (operations : List Operation) → AllByRecursion (IsPlaced (is_list_form form)) operations → NamesSources schema form w operations }
{}

/// What is computed as included is exactly what the paths reach from the primaries, less the primaries, each row once
/// and in the order of the keys (JSON:API 1.1, "Inclusion of Related Resources").
pub fn included_is_reached()
    ensures { (schema : List Kind) (w : World) (primaries : List Key) (paths : List Path) → IsValid schema w → AreIncluded schema w primaries paths (included schema w primaries paths) }
{}

/// The rows of a type and the rows at some keys are those of the world.
pub fn rows_are_the_worlds()
    ensures of_type { (schema : List Kind) (w : World) (kind : ℕ) → IsValid schema w → AreRowsOf w kind (rows_of w kind) }
    ensures at_keys { (schema : List Kind) (w : World) (keys : List Key) → IsValid schema w → AreRowsAt w keys (rows_at w keys) }
{}

/// Rows that their ids tell apart are sorted: each stands before all that follow it, and none is lost or new (JSON:API
/// 1.1, "Sorting").
pub fn sorting_is_exact()
    ensures { (sort : List SortKey) (rows : List Row) → AreApart rows → AreSorted sort rows (sorted sort rows) }
{}

/// A page is in order, at most as long as was asked, has nothing that was not asked for and leaves nothing out while it
/// has room, and says whether a row stands before it and behind it and whether a range was cut short: of any rows that their ids tell apart, of a
/// collection, and of what a relationship leads to (Cursor Pagination profile).
pub fn pages_are_exact()
    ensures rows { (sort : List SortKey) (page : Page) (rows : List Row) → AreApart rows → PageIsExact sort page rows }
    ensures collections { (schema : List Kind) (w : World) (kind : ℕ) (sort : List SortKey) (page : Page) → IsValid schema w → PageIsExact sort page (rows_of w kind) }
    ensures relationships { (schema : List Kind) (w : World) (row : Row) (rel : ℕ) (sort : List SortKey) (page : Page) → IsValid schema w → PageIsExact sort page (rows_at w (linked schema row rel)) }
{}

/// A document shows each resource once, all of them rows of one world, and each that is included is reached from a primary
/// by links that are shown, unless a field set leaves them out, between resources that it shows ("Compound Documents"); its resource objects are those of these rows.
pub fn documents_are_fully_linked()
    ensures linked { (schema : List Kind) (w : World) (fetch : Fetch) → IsValid schema w → DocumentIsLinked schema w fetch }
    ensures shown { (schema : List Kind) (w : World) (fetch : Fetch) → ShowsResources fetch.target → DocumentShows schema w fetch }
{}

/// The body of the reply to a fit task is empty, or the compact text of a value without floats, the members of whose
/// objects stand in byte order; so is each resource object and each document that is written (of this project: RFC 8259,
/// section 4, leaves the order open).
pub fn replies_are_plain()
    ensures replies { (schema : List Kind) (w : World) (t : Task) → IsTrue (is_schema schema) → IsValid schema w → IsFit schema t → HasPlainBody (answer schema w t) }
    ensures documents { (schema : List Kind) (w : World) (fetch : Fetch) → IsTrue (is_schema schema) → IsValid schema w → IfSome (document schema w fetch) IsPlain }
    ensures resources { (schema : List Kind) (w : World) (k : Key) (row : Row) (fields : Fields) → IsTrue (is_schema schema) → IsValidRow schema w k row → IsPlain (resource schema row fields) }
{}

/// A page is told by its properties: two that are one page of some rows are equal, so that a scan may prove the
/// property and has the definition.
pub fn page_is_one()
    ensures { (sort : List SortKey) (page : Page) (rows : List Row) (a b : Selected) → IsPage sort page rows a → IsPage sort page rows b → a ≡ b }
{}

/// A sorted list is told by its properties.
pub fn sorted_is_one()
    ensures { (sort : List SortKey) (rows a b : List Row) → AreSorted sort rows a → AreSorted sort rows b → a ≡ b }
{}

/// What is included is told by its properties.
pub fn included_is_one()
    ensures { (schema : List Kind) (w : World) (primaries : List Key) (paths : List Path) (a b : List Row) → AreIncluded schema w primaries paths a → AreIncluded schema w primaries paths b → a ≡ b }
{}
