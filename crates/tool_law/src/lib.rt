//! The law of a client over a gateway: where its datagrams reach a slave's server and the server's reach it, its call ends with the reply of the
//! service, which the server has carried out, once. No running code: the functions here do nothing, and their contracts state the law.
#![tactic(auto)]

ghost use Rattle.std.specs.Prelude.{◌≡◌, ◌<◌, ℕ, true, List, length};
ghost use Rattle.gateway_tool.specs.of_ec_outside.Port.{HeardGram};
ghost use Rattle.gateway_tool.specs.of_ec_outside.declared.port.Peer.{Peer};
ghost use Rattle.gateway_tool.specs.of_ec_outside.declared.port.SentGram.{SentGram};
ghost use Rattle.slave_model.specs.of_mailbox_mail.declared.mail.Mail.{Mail};
ghost use Rattle.gateway_tool.specs.of_object_dictionary.declared.service.SdoService.{SdoService};
ghost use Rattle.gateway_tool.specs.of_segment_plan.declared.service.Service.{Service};
ghost use Rattle.gateway_tool.specs.of_coe_client.Talk.{service_view};
ghost use Rattle.slave_model.specs.of_protocol_models.FoeMeaning as FoeMeaning;
ghost use Rattle.slave_model.specs.of_protocol_models.FoeModel as FoeModel;
ghost use Rattle.slave_model.specs.Profile.{Protocol, Profile, IsProfile, areas_of};
ghost use Rattle.slave_model.specs.Application.{Parts, ArePartsLawful, station_files};
ghost use Rattle.slave_model.specs.Server.{Server, seat};
ghost use Rattle.slave_model.specs.Product.{protocols};
ghost use Rattle.gateway_tool.specs.declared.reply.Reply.{Reply};
ghost use Rattle.gateway_tool.specs.declared.asking.ToolEnd.{ToolEnd};
ghost use Rattle.gateway_tool.specs.Told.{Told};
ghost use Rattle.gateway_tool.specs.Ended.{HasEnded};
ghost use Rattle.tool_law.specs.Services.{IsEntry, IsFile};
ghost use Rattle.tool_law.specs.Slave.{slave_exchange};
ghost use Rattle.tool_law.specs.Gives.{Gives};
ghost use Rattle.tool_law.specs.Concluded.{Tells, Concludes};

/// A download or an upload of an entry, at a server with any unfinished transfers but no half joined value, in any AL state, whether the slave
/// serves CoE or not. Where the port tells its lists, and what was heard is what the server gives for what was sent, the call ends with a reply,
/// by a fault of the port or for want of memory, and a reply is the service's; the server has carried the service out, once.
pub fn entry_law<T, F, I>()
    ensures { (o : Parts T F I) → ArePartsLawful o → (p : Profile) → IsProfile p → (al : ℕ) (j : Server T F I) → (protocols o p al).ready j ≡ true →
        (s : SdoService) (station : ℕ) (to : Peer) → IsEntry s → station < 65536 → (first last : Told) (heard : List HeardGram) (sent : List SentGram) (requests : List Mail) (value : Reply) (end : ToolEnd) →
        Tells first last heard sent → HasEnded (record { areas = areas_of p; service = Service.Sdo s; station = station; to = to }) first last value end →
        Gives (slave_exchange o p al).serve (slave_exchange o p al).speech.emission j sent heard requests → Concludes (slave_exchange o p al) j (Protocol.CoE, service_view s) requests value end }
{}

/// The same of a file that is read or written, in fewer than 65,536 mails.
pub fn file_law<T, F, I>()
    ensures { (o : Parts T F I) → ArePartsLawful o → (p : Profile) → IsProfile p → (al : ℕ) (j : Server T F I) → (protocols o p al).ready j ≡ true →
        (s : Service) (q : FoeMeaning.Service) (station : ℕ) (to : Peer) → IsFile s q → FoeModel.is_service q ≡ true → length (FoeModel.full (station_files o al) (areas_of p) (seat Protocol.FoE j) q) < 65536 → station < 65536 →
        (first last : Told) (heard : List HeardGram) (sent : List SentGram) (requests : List Mail) (value : Reply) (end : ToolEnd) →
        Tells first last heard sent → HasEnded (record { areas = areas_of p; service = s; station = station; to = to }) first last value end →
        Gives (slave_exchange o p al).serve (slave_exchange o p al).speech.emission j sent heard requests → Concludes (slave_exchange o p al) j (Protocol.FoE, q) requests value end }
{}
