//! Bells over sockets: how a connection that waits hears of bytes for it.

use std::alloc::{AllocError, Global};
use std::collections::BTreeMap;
use std::io;
use std::io::ErrorKind;
use std::net::{Ipv4Addr, Net, SocketAddr, UdpSocket};
use std::sync::atomic::{AtomicU64, Ordering};
use std::sync::{Arc, Mutex, Wait};
use tree_hall::Bells;

/// A bell: a socket that sends to itself, on the loopback. While one datagram is under way no other is sent.
#[derive(Drop)]
pub(crate) struct Bell {
    socket: UdpSocket,
    under_way: AtomicU64,
}

impl Bell {
    /// A bell that is silent.
    ///
    /// # Errors
    /// The system gives no socket.
    pub fn new<R: Net>(rt: &R) -> io::Result<Bell> {
        let socket = UdpSocket::bind(rt, SocketAddr::from((Ipv4Addr::LOCALHOST, 0)))?;
        socket.connect(socket.local_addr()?)?;
        socket.set_nonblocking(true)?;
        Ok(Bell {
            socket,
            under_way: AtomicU64::new(0),
        })
    }

    /// The socket that is ready to be read where the bell rang.
    pub fn socket(&self) -> &UdpSocket {
        &self.socket
    }

    // Rings, unless it rings already.
    fn ring(&self) {
        if self.under_way.swap(1, Ordering::SeqCst) == 0 && self.socket.send(&[1]).is_err() {
            self.under_way.store(0, Ordering::SeqCst);
        }
    }

    /// Takes the datagram, and then lets the bell ring again. What it rings for in between is seen by a look that follows.
    ///
    /// # Errors
    /// The socket failed.
    pub fn hush(&self) -> io::Result<()> {
        let mut piece = [0; 1];
        let taken = self.socket.recv(&mut piece);
        self.under_way.store(0, Ordering::SeqCst);
        match taken {
            Ok(_) => Ok(()),
            Err(fault) if fault.kind() == ErrorKind::WouldBlock => Ok(()),
            Err(fault) => Err(fault),
        }
    }
}

/// The bells of the connections, by their numbers.
#[derive(Drop)]
pub struct SocketRings<R: Wait + Clone + Drop> {
    rt: R,
    bells: Arc<Mutex<BTreeMap<u32, Arc<Bell>>>>,
}

impl<R: Wait + Clone + Drop> SocketRings<R> {
    /// No bells.
    pub(crate) fn new(alloc: Global, rt: R) -> Result<SocketRings<R>, AllocError> {
        let bells = Arc::new(alloc, Mutex::new(BTreeMap::new(alloc)))?;
        Ok(SocketRings { rt, bells })
    }

    /// The same bells.
    pub(crate) fn share(&self) -> Result<SocketRings<R>, AllocError> {
        Ok(SocketRings {
            rt: self.rt.clone()?,
            bells: Arc::try_clone(&self.bells)?,
        })
    }

    /// From here on this bell rings for the connection. Without memory none does, and the connection hears of bytes when it looks.
    pub(crate) fn hang(&self, connection: u32, bell: &Arc<Bell>) {
        if let Ok(bell) = Arc::try_clone(bell) {
            let mut bells = self.bells.lock(&self.rt);
            let _ = bells.insert(connection, bell);
        }
    }

    /// No bell rings for the connection from here on.
    pub(crate) fn take_down(&self, connection: u32) {
        let mut bells = self.bells.lock(&self.rt);
        let _ = bells.remove(&connection);
    }

    // The bell of a connection.
    fn bell(&self, connection: u32) -> Option<Arc<Bell>> {
        let bells = self.bells.lock(&self.rt);
        let bell = bells.get(&connection)?;
        Arc::try_clone(bell).ok()
    }
}

impl<R: Wait + Clone + Drop> Bells for SocketRings<R> {
    fn ring(&self, connection: u32) {
        if let Some(bell) = self.bell(connection) {
            bell.ring();
        }
    }
}
