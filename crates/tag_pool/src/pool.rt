ghost use Rattle.std.specs.Prelude.{◌≡◌, ◌≤◌, true, None, length, map, replicate, slice_set, IfOk};
ghost use Rattle.std.specs.List.{All};
ghost use Rattle.mid_base.specs.declared.names.DevAddr.{DevAddr};
ghost use Rattle.tag_pool.specs.Depths.{fuller, better, at_start, depth_in, Changes};
ghost use Rattle.tag_pool.specs.Tags.{is_out, out_of, has_room, Takes, taken};

use crate::depths::{DeviceDepth, at_start, better, fuller, place_of};
use crate::tags::Tags;
use mid_base::{DevAddr, NoMemory, Tag};
use std::alloc::Global;
use std::marker::Model;

/// What a device that asks for a tag is given.
#[derive(Clone, Copy, PartialEq, Eq, Debug)]
pub enum Take {
    /// This tag, which was the least free one.
    Tag(Tag),
    /// None, since all so many tags of the host are out.
    HostFull(u16),
    /// None, since the device has as many tags out as its depth, which is this one, or more.
    DeviceFull(u16),
}

/// The tags of a host, and the depths of its devices. Contracts see for each tag the device that it is out for, and what
/// is kept of each device. A device that the pool wasn't made with has the depth 0.
#[derive(Drop)]
pub struct TagPool {
    tags: Tags,
    devices: Vec<DeviceDepth>,
    // How many tags are out for each device.
    counts: Vec<u16>,
}

impl Model for TagPool {
    ghost use Rattle.std.specs.List.{All};
    ghost use Rattle.tag_pool.specs.Pool.{Pool};
    ghost use Rattle.tag_pool.specs.Depths.{IsSound};
    ghost use Rattle.tag_pool.specs.Counts.{AreCounted};

    ghost Value = { Pool };

    ghost view = { λ p. record { tags = p.tags; devices = p.devices.items } };

    ghost invariant = { λ p. All IsSound p.devices.items × AreCounted p.tags p.devices.items p.counts.items };
}

impl TagPool {
    /// A pool of `can_queue` free tags, for devices that each begin with their scripted depth, which is at least 1.
    /// NoMemory where its room can't be had.
    pub fn new(
        alloc: Global,
        can_queue: u16,
        devices: &[(DevAddr, u16)],
    ) -> Result<TagPool, NoMemory>
        requires { All (λ x. 1 ≤ x.1) devices.now }
        ensures tags { IfOk result (λ p. p.tags ≡ replicate can_queue None) }
        ensures devices { IfOk result (λ p. p.devices ≡ map at_start devices.now) }
    {
        let tags = Tags::new(alloc, can_queue)?;
        let Ok(mut depths) = Vec::with_capacity(alloc, devices.len()) else {
            return Err(NoMemory);
        };
        let Ok(counts) = vec![in alloc; 0; devices.len()] else {
            return Err(NoMemory);
        };
        for scripted in devices {
            depths.push_reserved(at_start(*scripted));
        }
        Ok(TagPool {
            tags,
            devices: depths,
            counts,
        })
    }

    /// Takes the least free tag for a device, for which it is out from then on. Where all tags of the host are out, the
    /// answer is HostFull with their number; else, where as many of the device's are out as its depth or more, DeviceFull
    /// with that depth; and nothing changes then.
    pub fn take(&mut self, dev: DevAddr) -> Take
        ensures answer { Takes self.old.tags dev (depth_in dev self.old.devices) result }
        ensures tags { self.new.tags ≡ taken self.old.tags dev result }
        ensures devices { self.new.devices ≡ self.old.devices }
    {
        let Some(free) = self.tags.least_free() else {
            return Take::HostFull(self.tags.count());
        };
        let Some(place) = place_of(&self.devices, dev) else {
            return Take::DeviceFull(0);
        };
        let depth = self.devices[place].depth;
        if self.counts[place] >= depth {
            return Take::DeviceFull(depth);
        }
        self.tags.take(free, dev);
        self.counts[place] += 1;
        Take::Tag(Tag(free))
    }

    /// Whether `take` would give the device a tag: one is free, and fewer of the device's are out than its depth.
    pub fn can_take(&self, dev: DevAddr) -> bool
        ensures { result ≡ has_room self.now.tags dev (depth_in dev self.now.devices) }
    {
        let one_is_free = self.tags.all_out() < self.tags.count();
        match place_of(&self.devices, dev) {
            Some(place) => one_is_free && self.counts[place] < self.devices[place].depth,
            None => false,
        }
    }

    /// Gives a tag back, which has to be out, and is free from then on.
    pub fn give(&mut self, t: Tag)
        requires { is_out t.0 self.old.tags ≡ true }
        ensures tags { self.new.tags ≡ slice_set self.old.tags t.0 None }
        ensures devices { self.new.devices ≡ self.old.devices }
    {
        let dev = self.tags.give(t.0);
        if let Some(place) = place_of(&self.devices, dev) {
            self.counts[place] -= 1;
        }
    }

    /// A device has answered TASK SET FULL. Its depth becomes one less than so many of its tags as are out, where that is
    /// less than the depth, but at least 1. A depth that stays as it is doesn't start the count of GOODs anew.
    pub fn full_seen(&mut self, dev: DevAddr)
        ensures tags { self.new.tags ≡ self.old.tags }
        ensures devices { Changes dev (fuller (out_of dev self.old.tags)) self.old.devices self.new.devices }
    {
        if let Some(place) = place_of(&self.devices, dev) {
            self.devices[place] = fuller(self.devices[place], self.counts[place]);
        }
    }

    /// A device has answered GOOD. The fourth GOOD since its depth last changed raises that by 1, up to the scripted depth,
    /// at which none is counted.
    pub fn good_seen(&mut self, dev: DevAddr)
        ensures tags { self.new.tags ≡ self.old.tags }
        ensures devices { Changes dev better self.old.devices self.new.devices }
    {
        if let Some(place) = place_of(&self.devices, dev) {
            self.devices[place] = better(self.devices[place]);
        }
    }

    /// How many tags of a device may be out at once.
    pub fn depth(&self, dev: DevAddr) -> u16
        ensures { result ≡ depth_in dev self.now.devices }
    {
        match place_of(&self.devices, dev) {
            Some(place) => self.devices[place].depth,
            None => 0,
        }
    }
}
