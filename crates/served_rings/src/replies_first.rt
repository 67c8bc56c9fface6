//! The servers of a slave give replies first, and emissions behind them. Definitions and laws, no running code.

ghost use Rattle.std.specs.Prelude.{ℕ};
ghost use Rattle.run_work.specs.of_few_replies.Led.{RepliesFirst};
ghost use Rattle.run_work.specs.of_slave_model.Profile.{Profile};
ghost use Rattle.run_work.specs.of_slave_model.Application.{Parts};
ghost use Rattle.run_work.specs.of_slave_model.Product.{protocols};

/// Whatever mail is taken, in whatever state of the slave: what its servers of CoE, FoE, SoE and EoE, and where one isn't served the refusal, give for
/// it are replies, and behind them emissions.
pub fn replies_first<T, F, I>()
    ensures { (o : Parts T F I) (p : Profile) (al : ℕ) → RepliesFirst (protocols o p al) }
{}
