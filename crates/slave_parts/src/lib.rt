//! The laws of exchange, spoken of one slave's real parts: its object dictionary, its store of files and its table of IDNs; and of its services from
//! whatever server, with unfinished transfers of any kind. No running code.
#![tactic(auto)]

pub mod coe_served;
pub mod eoe_served;
pub mod foe_served;
pub mod parts_served;
pub mod serving_sum;
pub mod slave_served;
pub mod soe_served;

ghost use Rattle.idn_table.specs.of_exchange_model.Exchange.{IsLawful};
ghost use Rattle.serving_model.specs.of_state_model.Stated.{IsStated};
ghost use Rattle.serving_model.specs.of_state_model.Families.{states_of};
ghost use Rattle.slave_model.specs.Profile.{Profile, IsProfile};
ghost use Rattle.slave_model.specs.Application.{ArePartsLawful};
ghost use Rattle.slave_model.specs.Acknowledged.{acknowledged};
ghost use Rattle.slave_model.specs.Product.{product};
ghost use Rattle.slave_parts.specs.Parts.{parts};

/// Dictionary, store and IDN table are such parts as the protocols of a slave stand on.
pub fn parts_are_lawful()
    ensures { ArePartsLawful parts }
{
    coe_server::objects_are_lawful();
    coe_server::objects_are_spelled();
    foe_server::store_files_are_lawful();
    idn_table::idns_are_lawful();
}

/// So the one exchange of a slave keeps the laws, and the AL state is a part of its application.
pub fn slave_is_lawful()
    ensures lawful { (p : Profile) → IsProfile p → IsLawful (product parts p) }
    ensures stated { (p : Profile) → IsProfile p → IsStated (product parts p) (states_of acknowledged) }
{
    parts_are_lawful();
}
