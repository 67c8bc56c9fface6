//! FoE from whatever server. Definitions and laws, no running code.

ghost use Rattle.idn_table.specs.of_exchange_model.Areas.{Areas, AreMailboxes};
ghost use Rattle.eoe_server.specs.of_protocol_models.Files.{Files, AreLawful};
ghost use Rattle.serving_model.specs.Tagged.{IsServed};
ghost use Rattle.slave_parts.specs.FoeServed.{foe_served, files_of, StaysValid};

/// FoE owes the laws of its services from any server, with an unfinished transfer of any kind; a new version that is whole, and is kept back
/// while the file is busy, has room.
pub fn foe_is_served<S>()
    ensures { (o : Files S) (areas : Areas) → AreLawful o → StaysValid o → AreMailboxes areas → IsServed (foe_served o areas) files_of }
{}
