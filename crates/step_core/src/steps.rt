//! Single steps.
use crate::carry::carry;
use crate::clients::step_of_client;
use crate::cluster::Cluster;
use crate::settle::settle;
use crate::tiles::{keep_shown, step_of_tile};
use rc_base::out_of_memory::OutOfMemory;
use world_model::Move;

impl Cluster {
    ghost use Rattle.std.specs.Prelude.{◌≡◌, ◌+◌, ◌<◌, length};
    ghost use Rattle.step_core.specs.Worlds.{IsSeen};
    ghost use Rattle.step_core.specs.Steps.{Turns};

    pub(crate) fn step_client(&mut self, client: usize) -> Result<Move, OutOfMemory>
        requires seen { IsSeen self.old }
        requires client { client < length self.old.clients.items }
        ensures turn { Turns client self.old result self.new }
        ensures lacking { self.new.lacking ≡ self.old.lacking }
    {
        match step_of_client(
            &mut self.clients,
            client,
            &mut self.ports,
            &mut self.requests,
        ) {
            Ok(answer) => {
                carry(&mut self.ports, &mut self.parcels, client, answer);
                Ok(Move::Client {
                    client: client as u8,
                    answer,
                })
            }
            Err(OutOfMemory) => Err(OutOfMemory),
        }
    }

    pub(crate) fn step_manager(&mut self) -> Result<Move, OutOfMemory>
        requires { IsSeen self.old }
        ensures turn { Turns (length self.old.clients.items) self.old result self.new }
        ensures lacking { self.new.lacking ≡ self.old.lacking }
    {
        match self.manager.step(&mut self.requests, &mut self.grants) {
            Ok(answer) => Ok(Move::Manager { answer }),
            Err(OutOfMemory) => Err(OutOfMemory),
        }
    }

    pub(crate) fn step_tile(&mut self, tile: usize) -> Result<Move, OutOfMemory>
        requires seen { IsSeen self.old }
        requires tile { tile < length self.old.tiles.items }
        ensures turn { Turns (length self.old.clients.items + 1 + tile) self.old result self.new }
        ensures lacking { self.new.lacking ≡ self.old.lacking }
    {
        let moved = step_of_tile(&mut self.tiles, &mut self.parcels, &mut self.grants, tile);
        settle(&mut self.ports, tile, &self.parcels[tile]);
        match moved {
            Ok(moved) => match keep_shown(&mut self.parts, tile, moved) {
                Ok(answer) => Ok(Move::Tile {
                    tile: tile as u8,
                    answer,
                }),
                Err(OutOfMemory) => Err(OutOfMemory),
            },
            Err(OutOfMemory) => Err(OutOfMemory),
        }
    }

    /// How many actors there are.
    pub(crate) fn actors(&self) -> usize
        requires { IsSeen self.now }
        ensures { result ≡ length self.now.clients.items + 1 + length self.now.tiles.items }
    {
        self.clients.len() + 1 + self.tiles.len()
    }

    /// One step of the actor of this number: the clients have the numbers from 0, then comes the manager, then the tiles. It answers OutOfMemory where
    /// the actor lacks memory, which is short from then on, and where there is none to keep a part that the tile shows.
    pub(crate) fn step(&mut self, number: usize) -> Result<Move, OutOfMemory>
        requires seen { IsSeen self.old }
        requires number { number < length self.old.clients.items + 1 + length self.old.tiles.items }
        ensures turn { Turns number self.old result self.new }
        ensures lacking { self.new.lacking ≡ self.old.lacking }
    {
        let clients = self.clients.len();
        if number < clients {
            return self.step_client(number);
        }
        if number == clients {
            return self.step_manager();
        }
        self.step_tile(number - clients - 1)
    }
}
