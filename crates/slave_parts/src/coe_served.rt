//! CoE from whatever server. Definitions and laws, no running code.

ghost use Rattle.std.specs.Prelude.{Bool};
ghost use Rattle.idn_table.specs.of_exchange_model.Areas.{Areas, AreMailboxes};
ghost use Rattle.eoe_server.specs.of_protocol_models.Tables.{Tables, AreLawful};
ghost use Rattle.serving_model.specs.Tagged.{IsServed};
ghost use Rattle.slave_parts.specs.CoeServed.{coe_served, tables_of};

/// CoE owes the laws of its services from any server, with an unfinished SDO transfer of any kind.
pub fn coe_is_served<S>()
    ensures { (o : Tables S) (eoe : Bool) (areas : Areas) → AreLawful o → AreMailboxes areas → IsServed (coe_served o eoe areas) tables_of }
{}
