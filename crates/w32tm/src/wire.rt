//! The wire: that of the commands that call a service, and that of a service.
ghost use Rattle.std.specs.Prelude.{◌≡◌, ℕ, None, Some};
ghost use Rattle.edge_io.specs.declared.tcp_wire.Side.TheVariants.{Closed, Connecting};
ghost use Rattle.edge_traits.specs.declared.datagram.Addr.{Addr};
ghost use Rattle.w32tm.specs.Wire.{IsListening, calls, rpc_port_by, target_by};

use edge_io::{Addr, TcpWire};
use std::net::Net;
use std::time::Clock;
use w32tm_text::{Action, Command};

/// The port of remote calls, where the words name none.
const CALLS_PORT: u16 = 49_152;

/// The wire: its one session is with the service that the command calls, or its sessions come from the port of a service.
pub(crate) fn wire_of<R: Net + Clock + Copy + Drop>(rt: R, command: &Option<Command>) -> TcpWire<R>
    ensures called { (to : Addr) → target_by command.now ≡ Some to → result.side ≡ Connecting to }
    // A service connects to nothing. Where its port can't be had, each request for a session fails.
    ensures served { (port : ℕ) → rpc_port_by command.now ≡ Some port → IsListening result.side }
    // The others connect to nothing, and nobody to them.
    ensures no_wire { target_by command.now ≡ None → rpc_port_by command.now ≡ None
        → result.side ≡ Closed }
{
    if let Some(port) = rpc_port_by(command) {
        return match TcpWire::listen(rt, port) {
            Ok(wire) => wire,
            Err(_) => TcpWire::without_socket(rt),
        };
    }
    match target_by(command) {
        Some(to) => TcpWire::connect(rt, to),
        None => TcpWire::without_socket(rt),
    }
}

/// The local port of remote calls. None where there is no command, or one that isn't called.
pub(crate) fn rpc_port_by(command: &Option<Command>) -> Option<u16>
    ensures { result ≡ rpc_port_by command.now }
{
    match command {
        Some(command) => match command.action {
            Action::Service(_) => Some(command.rpc_port.unwrap_or(CALLS_PORT)),
            _ => None,
        },
        None => None,
    }
}

/// The service that the command calls. None where there is no command, or one that calls none.
pub(crate) fn target_by(command: &Option<Command>) -> Option<Addr>
    ensures { result ≡ target_by command.now }
{
    match command {
        Some(command) if calls(&command.action) => Some(command.computer),
        _ => None,
    }
}

/// Whether the command calls a service.
fn calls(action: &Action) -> bool
    ensures { result ≡ calls action.now }
{
    matches!(
        action,
        Action::Resync { .. } | Action::QuerySource | Action::QueryBits
    )
}

#[cfg(test)]
mod tests {
    use super::*;
    use edge_io::{Opened, Wire};
    use std::alloc::{AllocError, Global};
    use std::test::Fail;
    use w32tm_text::read_words;

    fn command_of(alloc: Global, texts: &[&str]) -> Result<Option<Command>, AllocError> {
        let mut words = Vec::new(alloc);
        for text in texts {
            words.push(String::from_str(alloc, text)?)?;
        }
        Ok(read_words(&words).ok())
    }

    #[test]
    fn services_of_commands(rt: HostRuntime) -> Result<(), Fail> {
        let own = Some(Addr {
            ip: 0x7F00_0001,
            port: 49152,
        });
        let other = Some(Addr {
            ip: 0x0A00_0001,
            port: 8,
        });
        for (texts, target) in [
            (["/resync"].as_slice(), own),
            (&["/resync", "/computer:10.0.0.1:8", "/nowait"], other),
            (&["/query", "/computer:10.0.0.1:8", "/source"], other),
            (&["/query", "/bits"], own),
            (&["/monitor", "/config:a"], None),
            (&["/query"], None),
        ] {
            let command = command_of(rt.alloc(), texts)?;
            assert_eq!(rt; target_by(&command), target, "{texts:?}");
        }
        Ok(())
    }

    #[test]
    fn ports_of_calls(rt: HostRuntime) -> Result<(), Fail> {
        for (texts, port) in [
            (
                ["/service:1", "/config:a", "/keeper:b"].as_slice(),
                Some(49152),
            ),
            (
                &["/service:1", "/config:a", "/keeper:b", "/rpcport:8"],
                Some(8),
            ),
            (
                &["/service:1", "/config:a", "/keeper:b", "/port:8"],
                Some(49152),
            ),
            (&["/member:1", "/config:a", "/keeper:b"], None),
            (&["/resync"], None),
            (&["/service:1"], None),
        ] {
            let command = command_of(rt.alloc(), texts)?;
            assert_eq!(rt; rpc_port_by(&command), port, "{texts:?}");
            assert_eq!(rt; target_by(&command).is_none(), texts[0] != "/resync");
        }
        Ok(())
    }

    // A service accepts on the port of its words. Where another has that, each request for a session fails.
    #[test]
    fn wire_accepts_on_the_port(rt: HostRuntime) -> Result<(), Fail> {
        let alloc = rt.alloc();
        let port = TcpWire::listen(&rt, 0)?.port()?;
        let named = format!(in alloc; "/rpcport:{port}")?;
        let texts = ["/service:1", "/config:a", "/keeper:b", named.as_str()];
        let command = command_of(alloc, &texts)?;
        let mut wire = wire_of(&rt, &command);
        assert_eq!(rt; wire.port()?, port);
        assert_eq!(rt; wire_of(&rt, &command).next_session(), Opened::Failed);
        let to = Addr {
            ip: 0x7F00_0001,
            port,
        };
        let mut client = TcpWire::connect(&rt, to);
        assert_eq!(rt; client.next_session(), Opened::Session);
        assert_eq!(rt; wire.next_session(), Opened::Session);
        Ok(())
    }

    // Somebody listens on a port; on another nobody does, since its listener is gone; and a command that calls nobody has
    // no session either.
    #[test]
    fn wire_connects_to_the_service(rt: HostRuntime) -> Result<(), Fail> {
        let alloc = rt.alloc();
        let listener = TcpWire::listen(&rt, 0)?;
        let port = listener.port()?;
        let free = TcpWire::listen(&rt, 0)?.port()?;
        for (port, opened) in [(port, Opened::Session), (free, Opened::Failed)] {
            let named = format!(in alloc; "/computer:127.0.0.1:{port}")?;
            let command = command_of(alloc, &["/query", "/bits", named.as_str()])?;
            assert_eq!(rt; wire_of(&rt, &command).next_session(), opened, "{port}");
        }
        let command = command_of(alloc, &["/monitor", "/config:a"])?;
        assert_eq!(rt; wire_of(&rt, &command).next_session(), Opened::Failed);
        Ok(())
    }
}
