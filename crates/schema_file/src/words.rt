ghost use Rattle.std.specs.Prelude.{◌≡◌};
ghost use Rattle.schema_file.specs.FaultWords.{word_of};

use resource_schema::Why;

/// The word that is printed for a fault. Takes no memory.
pub fn word_of(why: Why) -> &'static str
    ensures { result.now ≡ word_of why }
{
    match why {
        Why::NoJson => "json",
        Why::NotObject => "object",
        Why::Empty => "empty",
        Why::Limit => "limit",
        Why::BadName => "name",
        Why::Reserved => "reserved",
        Why::Shared => "shared",
        Why::BadFlag => "flag",
        Why::BadType => "type",
        Why::BadDefault => "default",
        Why::BadKind => "kind",
        Why::BadTarget => "target",
    }
}
