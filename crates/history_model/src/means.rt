/// What tasks mean to a subject, by its kind. It has no value and runs no task; code that asks only this of a type cannot
/// run a request.
pub trait Means {
    ghost use Rattle.task_forms.specs.Meaning.{Meaning, IsLawful};

    /// What the meaning depends on, as plain data.
    type Kind;

    /// What tasks mean.
    ghost meaning: { Self.Kind → Meaning };

    /// The empty world is valid, a fit task keeps a valid world valid, and a fetch and an error change nothing.
    ghost lawful: { (k : Self.Kind) → IsLawful (meaning k) };
}
