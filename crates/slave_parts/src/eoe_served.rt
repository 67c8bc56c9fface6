//! EoE from whatever server. Definitions and laws, no running code.

ghost use Rattle.idn_table.specs.of_exchange_model.Areas.{Areas, AreMailboxes};
ghost use Rattle.eoe_server.specs.of_protocol_models.Network.{Network, IsSound};
ghost use Rattle.serving_model.specs.Tagged.{IsServed};
ghost use Rattle.slave_parts.specs.EoeServed.{eoe_served, station_of};

/// EoE owes the laws of its services from any server, with an unfinished packet or without one.
pub fn eoe_is_served<S>()
    ensures { (o : Network S) (areas : Areas) → IsSound o → AreMailboxes areas → IsServed (eoe_served o areas) station_of }
{}
