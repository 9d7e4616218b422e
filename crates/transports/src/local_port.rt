ghost use Rattle.std.specs.Prelude.{◌≡◌, [], ◌∷◌};
ghost use Rattle.std.specs.Net.Addr.{IsV4And, ipv4_octets};
ghost use Rattle.std.specs.Net.Socket.{socket_ip, socket_port};

use crate::listener::Listener;
use std::io;
use std::net::{Ipv4Addr, Net, SocketAddr, TcpListener, TcpStream};

/// A port of 127.0.0.1, which only programs of this machine reach.
#[derive(Clone, Copy, Debug, PartialEq, Eq)]
pub struct LocalPort(pub u16);

impl LocalPort {
    /// Its address, for the calls of the system.
    pub fn address(self) -> SocketAddr
        ensures ip { IsV4And (socket_ip result) (λ ip. ipv4_octets ip ≡ 127 ∷ 0 ∷ 0 ∷ 1 ∷ []) }
        ensures port { socket_port result ≡ self.0 }
    {
        SocketAddr::from((Ipv4Addr::LOCALHOST, self.0))
    }

    /// Listens at it, and says at which port: for 0 the system chooses one.
    pub fn listen<R: Net<Listener = TcpListener, Stream = TcpStream>>(
        self,
        rt: &R,
    ) -> io::Result<(Listener, Self)> {
        let listener = TcpListener::bind(rt, self.address())?;
        let chosen = listener.local_addr()?.port();
        Ok((Listener::Tcp(listener), LocalPort(chosen)))
    }
}
