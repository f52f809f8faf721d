//! The refusal for each fault of a gateway, of an opening and of a stream of requests.
ghost use Rattle.std.specs.Prelude.{◌≡◌, ◌↔◌, IsTrue};
ghost use Rattle.commands.specs.Faults.{IsOfGateway, edge_refusal, gateway_refusal, opening_refusal};

use gateway::{GatewayFault, OpenFault};
use refusals::Refusal;
use socket_edge::EdgeFault;

/// The refusal for a fault of the gateway. `HeldFull` counts as `Full`; no run ends with either.
pub(crate) fn of_gateway(fault: GatewayFault) -> Refusal
    ensures { result ≡ gateway_refusal fault }
{
    match fault {
        GatewayFault::Reopen => Refusal::Reopen,
        GatewayFault::NumbersOut => Refusal::NumbersOut,
        GatewayFault::HeldFull | GatewayFault::Full => Refusal::Full,
        GatewayFault::NoMemory => Refusal::NoMemory,
        GatewayFault::Device => Refusal::Device,
        GatewayFault::Generations => Refusal::Generations,
    }
}

/// The refusal for an opening that failed.
pub(crate) fn of_opening(fault: OpenFault) -> Refusal
    ensures { result ≡ opening_refusal fault }
{
    match fault {
        OpenFault::Device => Refusal::Device,
        OpenFault::Damaged => Refusal::Damaged,
        OpenFault::ConfigDiffers => Refusal::ConfigDiffers,
        OpenFault::Generations => Refusal::Generations,
        OpenFault::NoMemory => Refusal::NoMemory,
    }
}

/// The refusal for a stream of requests that ended early.
pub fn of_edge(fault: EdgeFault) -> Refusal
    ensures { result ≡ edge_refusal fault }
{
    match fault {
        EdgeFault::BadKind => Refusal::BadKind,
        EdgeFault::BadInterface => Refusal::BadInterface,
        EdgeFault::TooLong => Refusal::TooLong,
        EdgeFault::Truncated => Refusal::Truncated,
        EdgeFault::Input => Refusal::Input,
        EdgeFault::Output => Refusal::Output,
        EdgeFault::Gateway(fault) => of_gateway(fault),
    }
}

/// Whether a fault of one stream ends the program. Any other one ends a connection alone, and where the gateway stands
/// whoever connects next can be served.
pub(crate) fn ends_program(fault: EdgeFault) -> bool
    ensures { IsTrue result ↔ IsOfGateway fault }
{
    matches!(fault, EdgeFault::Gateway(_))
}
