ghost use Rattle.std.specs.Prelude.{◌≡◌, ◌<◌, ◌≤◌, ◌++◌, ◌∷◌, [], length};
ghost use Rattle.heavy_labels.specs.Padded.{padded};

use arrayvec::ArrayVec;
use std::marker::Model;

/// The most light ports that a label has.
pub const MOST_LIGHTS: usize = 13;

/// A member's label in a tree: its number, and for each light edge between the root and it that edge's port, the
/// root's first. Contracts see the number and the list; two labels are equal exactly where both are. It takes 30 bytes:
/// the places behind the last port hold zeros.
#[derive(Clone, PartialEq, Eq, Debug, Drop)]
pub struct Label {
    first: u16,
    count: u8,
    ports: [u16; MOST_LIGHTS],
}

impl Model for Label {
    ghost use Rattle.std.specs.Prelude.{length, take};
    ghost use Rattle.std.proofs.Common.{length-take-le, sym};
    ghost use Rattle.heavy_labels.specs.Label.{Label, label_code};
    ghost use Rattle.heavy_labels.specs.Padded.{IsPadded, padded};

    ghost Value = { Label };

    ghost coded = { label_code };

    ghost view = { λ a. record { first = a.first; lights = take a.count a.ports } };

    ghost invariant = { λ a. IsPadded a.count a.ports };

    ghost inverse = { λ l. record { first = l.first; count = length l.lights; ports = padded l.lights } };

    ghost inverse_ok = { λ a h i. record {
      first = a.first;
      count = length-take-le a.count a.ports h.many i;
      ports = sym h.zeros i;
    } };
}

impl Label {
    /// The label with this number and these light ports.
    pub fn new(first: u16, lights: ArrayVec<u16, MOST_LIGHTS>) -> Label
        ensures { result ≡ record { first = first; lights = lights.items } }
    {
        Label::of(first, lights.as_slice())
    }

    /// The label with this number and these light ports, of which there are few enough.
    pub fn of(first: u16, lights: &[u16]) -> Label
        requires { length lights.now ≤ MOST_LIGHTS }
        ensures { result ≡ record { first = first; lights = lights.now } }
    {
        Label {
            first,
            count: lights.len() as u8,
            ports: with_zeros(lights),
        }
    }

    /// The member's number in preorder.
    pub fn first(&self) -> u16
        ensures { result ≡ self.now.first }
    {
        self.first
    }

    /// The ports of the light edges, the root's first.
    pub fn lights(&self) -> &[u16]
        ensures same { result.now ≡ self.now.lights }
        ensures few { length self.now.lights ≤ MOST_LIGHTS }
    {
        &self.ports[..self.count as usize]
    }

    /// An equal label. It takes no memory.
    pub fn copy(&self) -> Label
        ensures { result ≡ self.now }
    {
        Label {
            first: self.first,
            count: self.count,
            ports: self.ports,
        }
    }
}

impl Label {
    /// The label with another number.
    pub(crate) fn renumbered(&self, first: u16) -> Label
        ensures { result ≡ record { first = first; lights = self.now.lights } }
    {
        Label {
            first,
            count: self.count,
            ports: self.ports,
        }
    }

    /// The label with another number, and with a light port more.
    pub(crate) fn with_light(&self, first: u16, port: u16) -> Label
        requires { length self.now.lights < MOST_LIGHTS }
        ensures { result ≡ record { first = first; lights = self.now.lights ++ port ∷ [] } }
    {
        let mut ports = self.ports;
        ports[self.count as usize] = port;
        Label {
            first,
            count: self.count + 1,
            ports,
        }
    }
}

/// The ports, with zeros behind them.
fn with_zeros(lights: &[u16]) -> [u16; MOST_LIGHTS]
    requires { length lights.now ≤ MOST_LIGHTS }
    ensures { result ≡ padded lights.now }
{
    let mut ports = [0; MOST_LIGHTS];
    ports[..lights.len()].copy_from_slice(lights);
    ports
}

/// The same ports in a list of their own.
pub fn copied(ports: &[u16]) -> ArrayVec<u16, MOST_LIGHTS>
    requires { length ports.now ≤ MOST_LIGHTS }
    ensures { result.items ≡ ports.now }
{
    let mut all = ArrayVec::new();
    for port in ports {
        all.push(*port);
    }
    all
}
