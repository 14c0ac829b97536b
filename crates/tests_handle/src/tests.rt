mod calls;
mod fakes;
mod scene;
