//! SoE from whatever server. Definitions and laws, no running code.

ghost use Rattle.eoe_server.specs.of_protocol_models.Elements.{Elements, AreLawful};
ghost use Rattle.idn_table.specs.of_exchange_model.Areas.{Areas, AreMailboxes};
ghost use Rattle.serving_model.specs.Tagged.{IsServed};
ghost use Rattle.slave_parts.specs.SoeServed.{soe_served, table_of};

/// SoE owes the laws of its services from any server, with an unfinished join of any kind.
pub fn soe_is_served<S>()
    ensures { (o : Elements S) (areas : Areas) → AreLawful o → AreMailboxes areas → IsServed (soe_served o areas) table_of }
{}
