ghost use Rattle.std.specs.Prelude.{◌≡◌, [], ◌∷◌, IfOk};
ghost use Rattle.std.specs.Option.{option_map};
ghost use Rattle.resource_schema.specs.declared.schema.Schema.{Schema};
ghost use Rattle.world_cells.specs.World.{cell_at};
ghost use Rattle.view_reads.specs.Recording.{pair_now};
ghost use Rattle.store_model.specs.Change.{is_referenced};
ghost use Rattle.store_model.specs.Reach.{is_back_to};
ghost use Rattle.trial_steps.specs.Steps.{LooksAt, Sees};
ghost use Rattle.row_change.specs.WaysBack.{link_found, FitsLink, IsFirstLink};

use ident_rules::{Key, NoMemory};
use outer_ends::Work;
use view_reads::{Recorder, View};
use world_cells::{Cell, CellKey, Span};

/// Whether a link from another row leads to the key.
///
/// At most two cells are looked at: the first way back from the key, and, where that leads to the key's own row, the first
/// behind those that lead there.
pub fn is_referenced<V: View>(
    key: &Key,
    recorder: &mut Recorder<V>,
    work: &mut Work,
) -> Result<bool, NoMemory>
    ensures looks { LooksAt (is_back_to (key.now ∷ [])) recorder.old recorder.new }
    ensures sees { (schema : Schema) → Sees schema V.cells recorder.old recorder.new (λ now. IfOk result (λ b. b ≡ is_referenced schema now key.now)) }
{
    let Some(link) = first_link(key, None, recorder, work)? else {
        return Ok(false);
    };
    if link.0 != *key {
        return Ok(true);
    }
    let other = first_link(key, Some((*key, u32::MAX)), recorder, work)?;
    Ok(other.is_some())
}

/// The first link that leads to the key, behind another one where that is given: its row and its relationship.
fn first_link<V: View>(
    key: &Key,
    after: Option<(Key, u32)>,
    recorder: &mut Recorder<V>,
    work: &mut Work,
) -> Result<Option<(Key, u32)>, NoMemory>
    ensures looks { LooksAt (is_back_to (key.now ∷ [])) recorder.old recorder.new }
    ensures sees { (schema : Schema) → Sees schema V.cells recorder.old recorder.new (λ now. IfOk result (IsFirstLink (cell_at schema now) key.now after)) }
    ensures fits { IfOk result FitsLink }
{
    let found = recorder.first_in(&Span::Backs { to: *key, after }, work)?;
    Ok(link_found(found))
}

/// The link whose way back was found, if one was.
fn link_found(found: Option<(&CellKey, &Cell)>) -> Option<(Key, u32)>
    ensures link { result ≡ link_found (option_map pair_now found.entry) }
    ensures fits { FitsLink result }
{
    match found {
        Some((CellKey::Back { to: _, from, rel }, _)) => Some((*from, *rel)),
        _ => None,
    }
}
